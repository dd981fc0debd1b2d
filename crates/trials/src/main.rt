// Trials: cases of document 01 and of requests W3, W8 and W14, random questions against plain nested loops, and random texts against a
// second, plain reader. It prints its counts; a disagreement prints the question or the text.
#![tactic(auto)]

mod buffers;
mod cases;
mod dice;
mod layout;
mod limits;
mod makes;
mod nested;
mod pages;
mod plain_text;
mod records;
mod refusals;
mod report;
mod rows;
mod runs;
mod tallies;
mod texts;
mod writer;

use cases::{
    try_named, try_open, try_open_texts, try_ranges, try_sample, try_witness_texts, try_witnesses,
    try_words,
};
use dice::Dice;
use limits::MOST_BYTES;
use makes::{Maker, Shape};
use report::{print_question, print_text};
use runs::try_question;
use tallies::{Questions, Texts};
use texts::{TEXT, random_text, try_text, whole_text};
use writer::Writer;

const QUESTIONS: usize = 3900;

const TEXTS: usize = 800;

// Room for the words of a question that is made.
const WORDS: usize = 8000;

// One random question; every fifth is damaged. The dice go on.
fn try_random(rt: &impl Print, seen: &mut Questions, dice: &mut Dice, number: usize) {
    let mut buffer = [0u16; WORDS];
    let mut maker = Maker::new(&mut buffer, *dice);
    maker.make_question(Shape::of(number));
    if number % 5 == 4 {
        maker.damage();
    }
    *dice = maker.dice;
    let words = maker.words();
    let tried = try_question(words, *dice);
    seen.note(&tried);
    if tried.is_err() {
        print_question(rt, words);
    }
    dice.roll();
}

fn try_questions(rt: &impl Print) -> Questions {
    let mut seen = Questions::default();
    let mut dice = Dice { seed: 20261115 };
    for number in 0..QUESTIONS {
        try_random(rt, &mut seen, &mut dice, number);
    }
    seen
}

// One text.
fn try_one(rt: &impl Print, seen: &mut Texts, text: &[u8]) {
    let tried = try_text(text);
    seen.note(&tried);
    if tried.is_err() {
        print_text(rt, text);
    }
}

// One random text, which has no range tables. The dice go on.
fn try_random_text(rt: &impl Print, seen: &mut Texts, dice: &mut Dice, number: usize) {
    let mut buffer = [0u16; WORDS];
    let mut text = [0u8; TEXT];
    let mut out = Writer::new(&mut text);
    let mut maker = Maker::new(&mut buffer, *dice);
    maker.make_question(Shape::without_ranges(number));
    *dice = maker.dice;
    random_text(&mut out, maker.words(), *dice);
    try_one(rt, seen, out.written());
    *dice = dice.rolled(2);
}

// A text whose run has more boxes than most, or is stopped for room.
fn try_large(rt: &impl Print, seen: &mut Texts, share: usize) {
    let mut buffer = [0u16; WORDS];
    let mut text = [0u8; TEXT];
    let mut out = Writer::new(&mut text);
    let mut maker = Maker::new(&mut buffer, Dice { seed: 11 });
    maker.make_large(share);
    let dice = maker.dice;
    whole_text(&mut out, maker.words(), dice);
    try_one(rt, seen, out.written());
}

// A text of one letter, so often; and one of a top line and a letter so often.
fn try_long(rt: &impl Print, seen: &mut Texts, length: usize) {
    let mut text = [b'a'; TEXT];
    let count = length.min(TEXT);
    try_one(rt, seen, &text[..count]);
    text[1] = b'\n';
    try_one(rt, seen, &text[..count]);
}

fn try_texts(rt: &impl Print) -> Texts {
    let mut seen = Texts::default();
    let mut dice = Dice { seed: 5112026 };
    for number in 0..TEXTS {
        try_random_text(rt, &mut seen, &mut dice, number);
    }
    for share in 1..=4 {
        try_large(rt, &mut seen, share);
    }
    try_long(rt, &mut seen, MOST_BYTES);
    try_long(rt, &mut seen, MOST_BYTES + 1);
    seen
}

fn print_cases(rt: &impl Print) {
    let words = try_words(rt);
    let sample = try_sample(rt);
    let named = try_named(rt);
    let _ = println!(rt;
        "K11 and K12: {words} of 5; sample text: {sample} of 1; other texts named: {named} of 23"
    );
    let open = try_open(rt);
    let texts = try_open_texts(rt);
    let _ = println!(rt; "open tables: questions {open} of 9, texts {texts} of 16");
    let ranges = try_ranges(rt);
    let _ = println!(rt; "range tables: questions {ranges} of 22");
    let witnesses = try_witnesses(rt);
    let texts = try_witness_texts(rt);
    let _ = println!(rt; "the widest witness: questions {witnesses} of 3, texts {texts} of 2");
}

fn main(rt: HostRuntime) {
    print_cases(&rt);
    let questions = try_questions(&rt);
    questions.print(&rt);
    let texts = try_texts(&rt);
    texts.print(&rt);
    let wrong = questions.wrong.saturating_add(texts.wrong);
    let _ = println!(rt; "disagreements: {wrong}");
}
