use report::{Ending, Page, report};
use std::process::Abort;
use stream::Refusal;

const TERMS: &[u8] = b"3 never c\n12 answer a by b within 5\n40 hold d under 4 allow 1\n";

fn same(rt: &impl Abort, page: Page, text: &[u8]) {
    assert!(rt; page.bytes() == text);
}

#[test]
fn lost_clauses_in_any_cut(rt: HostRuntime) {
    let front: &[u8] = &[0x40, 0, 0, 1, 0, 0, 0, 6, 0x40, 0];
    let back: &[u8] = &[0, 4];
    let lines = b"TERM       SAMPLE\n   3            2\n  12            2\nDONE            2\n";
    same(&rt, report(TERMS, &[front, back], Ending::Complete), lines);
    let lines = b"TERM       SAMPLE\nSTOP           12\n";
    same(&rt, report(TERMS, &[front], Ending::Complete), lines);
    let lines = b"TERM       SAMPLE\nSTOP           13\n";
    same(&rt, report(TERMS, &[], Ending::Unreadable), lines);
    same(&rt, Page::stopped(Refusal::UnreadableFile), lines);
}

#[test]
fn a_refused_word_and_a_fault(rt: HostRuntime) {
    // the word that is refused hides the bytes behind it
    let words: &[u8] = &[0x40, 0, 0, 4, 0x80, 0, 0, 0, 1, 2, 3];
    let lines = b"TERM       SAMPLE\n   3            1\nSTOP            2\n";
    same(&rt, report(TERMS, &[words], Ending::Complete), lines);
    let lines = b"TERM       SAMPLE\nSTOP           23\n";
    same(&rt, report(b"3 never c", &[words], Ending::Complete), lines);
}
