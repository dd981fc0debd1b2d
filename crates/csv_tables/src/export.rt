// The export: a listing as a comma-separated file, into a lent slice.
ghost use Rattle.std.specs.Prelude.{◌≡◌};
ghost use Rattle.fields.specs.Fields.{fields_of};
ghost use Rattle.fields.specs.Puts.{Puts};
ghost use Rattle.fields.specs.Writing.{tuples_of};
ghost use Rattle.csv_tables.specs.Exports.{export_csv};
ghost use Rattle.csv_tables.specs.Says.{counted, ExportSays};
ghost use Rattle.csv_tables.specs.Exporting.{export_refusal_number, ArityOf};
ghost use Rattle.csv_tables.specs.declared.export.ExportRefusal.TheVariants.{Names};

use super::refusal::read_names;
use super::{CARRIAGE, COMMA, FEED};
use fields::{NamesRefusal, print_whole, put_bytes, put_fields, put_tuples};

// What became of an export: its number, and how many bytes the file has, 0 for a refusal.
#[derive(Clone, Copy, Debug, PartialEq, Eq)]
pub struct Export {
    pub number: u8,
    pub count: u32,
}

// A number of bytes as a count: the highest one for a number above it.
fn as_count(bytes: usize) -> u32
    ensures { result ≡ counted bytes }
{
    bytes.min(u32::MAX as usize) as u32
}

// Why an export is refused: its line of names is; the listing does not divide into tuples of so many
// values.
#[derive(Clone, Copy, Debug, PartialEq, Eq)]
enum ExportRefusal {
    Names(NamesRefusal),
    Listing,
}

impl ExportRefusal {
    // Its number.
    fn number(self) -> u8
        ensures { result ≡ export_refusal_number self }
    {
        match self {
            ExportRefusal::Names(refusal) => refusal.number(),
            ExportRefusal::Listing => 3,
        }
    }
}

impl From<NamesRefusal> for ExportRefusal {
    ghost from_gives = { λ names refused. refused ≡ Names names };

    fn from(why: NamesRefusal) -> ExportRefusal {
        ExportRefusal::Names(why)
    }
}

// How many values each tuple of the listing has: one for each name.
fn arity_of(names: &[u8], listing: &[u16]) -> Result<usize, ExportRefusal>
    ensures { ArityOf names.now listing.now result }
{
    let arity = read_names(names)?;
    if listing.len() % arity != 0 {
        return Err(ExportRefusal::Listing);
    }
    Ok(arity)
}

// Puts the header and a record for each tuple of the listing.
fn put_file(out: &mut [u8], names: &[u8], listing: &[u16], arity: usize) -> usize
    ensures { Puts (export_csv (fields_of names.now) (tuples_of arity listing.now)) 0 out.old out.new result }
{
    let ends = [CARRIAGE, FEED];
    let header = put_fields(out, 0, names, COMMA);
    let line = put_bytes(out, header, &ends);
    put_tuples(out, line, listing, arity, COMMA, &ends)
}

// Writes a listing's tuples, each of as many values as there are names, as a file into out: all of it, or
// nothing where it does not fit; answers its length also then.
pub fn export_csv(names: &[u8], listing: &[u16], out: &mut [u8]) -> Export
    ensures { ExportSays names.now listing.now out.old out.new result }
{
    let arity = match arity_of(names, listing) {
        Ok(arity) => arity,
        Err(refusal) => {
            return Export {
                number: refusal.number(),
                count: 0,
            };
        }
    };
    let bytes = print_whole(
        out,
        |place: &mut [u8]|
            ensures { Puts (export_csv (fields_of names.entry.now) (tuples_of arity listing.entry.now)) 0 place.old place.new result }
        { put_file(place, names, listing, arity) },
    );
    let number = if out.len() < bytes { 13 } else { 0 };
    Export {
        number: number,
        count: as_count(bytes),
    }
}
