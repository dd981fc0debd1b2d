// What the trials print of a question or a text that is not as it should be. A write that fails leaves out what it was to
// write, and the trials go on.

// Prints the words of a question.
pub(crate) fn print_question(rt: &impl Print, words: &[u16]) {
    let _ = print!(rt; "disagreement, question:");
    for word in words {
        let _ = print!(rt; " {word}");
    }
    let _ = println!(rt;);
}

// Prints a text.
pub(crate) fn print_text(rt: &impl Print, text: &[u8]) {
    let _ = println!(rt; "disagreement, text:");
    let _ = rt.write_all(text);
    let _ = println!(rt;);
}
