// The tables of files that are lent one after the other, in their places among a question's words.
ghost use Rattle.std.specs.Prelude.{◌≡◌, []};
ghost use Rattle.csv_tables.specs.Imports.{import_csv};
ghost use Rattle.files.specs.Gathers.{gather_from};
ghost use Rattle.files.specs.Parts.{FilePut, GatherAsk, GatherSays};

use super::FRONT_WORDS;
use super::refusal::{JoinRefusal, JoinRefused};
use csv_tables::{Refused, read_file};

// Imports a file's table into the words from a place on, and answers how many words it has. Where it does
// not fit, no word is written, and the answer is the same.
fn import_at(names: &[u8], file: &[u8], words: &mut [u16], at: usize) -> Result<u32, Refused>
    ensures { FilePut (import_csv names.now file.now) at words.old words.new result }
{
    let from = at.min(words.len());
    let made = read_file(names, file, &mut words[from..])?;
    Ok(made.count)
}

// Imports file after file, each table behind the one before, and answers how many words their question has.
// Where these are too many, the files are asked all the same.
pub(crate) fn gather(
    names: &[u8],
    dimension: usize,
    files: &[u8],
    ends: &[u32],
    words: &mut [u16],
) -> Result<usize, JoinRefused>
    requires { GatherAsk names.now dimension ends.now words.old }
    ensures { GatherSays (gather_from names.now files.now 0 [] ends.now) dimension words.new result }
{
    let mut size = dimension + FRONT_WORDS;
    let mut from = 0;
    for (i, end) in ends.iter().enumerate() {
        let end = *end as usize;
        let file = i as u32 + 1;
        if files.len() < end || end < from {
            return Err(JoinRefused {
                why: JoinRefusal::End,
                file: Some(file),
                place: None,
            });
        }
        match import_at(names, &files[from..end], words, size) {
            Ok(count) => {
                size += count as usize;
            }
            Err(refused) => {
                return Err(JoinRefused::in_file(file, refused));
            }
        }
        from = end;
    }
    Ok(size)
}
