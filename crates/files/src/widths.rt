// The widths that tables need: for each attribute the least from 1 on that holds all its values.
ghost use Rattle.std.specs.Prelude.{◌≡◌, [], ◌∷◌, ◌++◌, ◌+◌, ◌*◌, ◌≤◌, ◌<◌, max, length, replicate};
ghost use Rattle.boxes.specs.Limits.{max_attributes};
ghost use Rattle.questions.specs.Words.{over};
ghost use Rattle.files.specs.Widths.{least_width, widths_for};
ghost use Rattle.files.specs.Parts.{FrontAsk};
ghost use Rattle.files.specs.Raising.{highest, column_words, raise_table, raise_tables, table_end, TableAt, TablesAt};

use super::FRONT_WORDS;
use boxes::MAX_ATTRIBUTES;

// The highest of a value and those of a column: `count` words from a place on, `step` apart.
fn highest_in(words: &[u16], from: usize, step: usize, count: usize, least: u16) -> u16
    requires step_le_max_attributes { step ≤ max_attributes }
    requires step_in_bounds { from + count * step < length words.now + step }
    ensures { result ≡ max least (highest (column_words words.now from step count)) }
{
    let mut high = least;
    for i in 0..count {
        high = high.max(words[from + i * step]);
    }
    high
}

// Raises the highest values by those of the table whose words begin at a place, column by column, and
// answers the place behind them.
fn raise_table(words: &[u16], at: usize, highest: &mut [u16; MAX_ATTRIBUTES]) -> usize
    requires { TableAt words.now at }
    ensures end { result ≡ table_end words.now at }
    ensures raised { highest.new ≡ raise_table words.now at highest.old }
{
    let arity = words[at] as usize;
    let names = at + 1;
    let count = words[names + arity] as usize;
    let begin = names + arity + 1;
    for j in 0..arity {
        let name = words[names + j] as usize;
        highest[name] = highest_in(words, begin + j, arity, count, highest[name]);
    }
    begin + count * arity
}

// The highest value of each attribute in tables that stand one after the other, 0 where there is none.
fn highest_values(words: &[u16], from: usize, tables: usize) -> [u16; MAX_ATTRIBUTES]
    requires { TablesAt words.now tables from }
    ensures { result ≡ raise_tables words.now tables from (replicate max_attributes 0) }
{
    let mut highest = [0u16; MAX_ATTRIBUTES];
    let mut at = from;
    for _table in 0..tables {
        at = raise_table(words, at, &mut highest);
    }
    highest
}

// The least width from 1 on that holds a value.
fn width_of(value: u16) -> u16
    ensures { result ≡ least_width (value ∷ []) }
{
    (u16::BITS - value.leading_zeros()).max(1) as u16
}

// Writes what stands before the tables of a question: the number of attributes, their widths, the number
// of tables.
pub(crate) fn put_front(words: &mut [u16], dimension: usize, tables: usize)
    requires { FrontAsk words.old dimension tables }
    ensures { (f : FrontAsk words.old dimension tables) → words.new ≡ over (dimension ∷ (widths_for dimension f.tables ++ (tables ∷ []))) words.old }
{
    let highest = highest_values(words, dimension + FRONT_WORDS, tables);
    words[0] = dimension as u16;
    for j in 0..dimension {
        words[j + 1] = width_of(highest[j]);
    }
    words[dimension + 1] = tables as u16;
}
