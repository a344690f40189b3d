// Hints, byte by byte.
use kb_io::Moment;
use kb_label::Spent;
use kb_text::{Bound, Kind};
use mkbtt_shown::{
    Manner, Progress, cleared, excerpt, line_hint, manner_of, other_words, progress_text,
    refusal_hint, spent_hint,
};
use std::mem::drop;
use std::process::Abort;

// What is shown is this text.
fn is_text(rt: &impl Abort, shown: Vec<u8>, want: &[u8]) {
    assert_eq!(rt; shown.as_slice(), want);
    drop(shown);
}

#[test]
fn the_symbol_that_clashes_has_a_caret(rt: HostRuntime) {
    let text = b"(VAR x y)(RULES f(x,y) == f(x))";
    let hint = refusal_hint(rt.alloc(), Kind::ArityClash, text, 26).expect(&rt, "memory");
    let want =
        b"1 | (VAR x y)(RULES f(x,y) == f(x))\n  |                           ^\nThis symbol has another number of arguments than where it came first: each symbol has one.\n";
    is_text(&rt, hint, want.as_slice());
}

#[test]
fn the_line_of_the_place_is_shown_alone(rt: HostRuntime) {
    let text = b"(VAR x)\n(RULES\n\tx(a) == gr\xC3\xB6\xC3\x9Fe\n)\n";
    let hint = refusal_hint(rt.alloc(), Kind::VariableApplied, text, 16).expect(&rt, "memory");
    let want =
        b"3 |  x(a) == gr??e\n  |  ^\nThis is a variable, named by a section VAR: it takes no arguments.\n";
    is_text(&rt, hint, want.as_slice());
}

#[test]
fn the_end_of_the_text_is_a_place(rt: HostRuntime) {
    let hint = refusal_hint(rt.alloc(), Kind::Unclosed, b"(RULES a == b", 13).expect(&rt, "memory");
    let want =
        b"1 | (RULES a == b\n  |              ^\nThe text ends here, within parentheses that are still open.\n";
    is_text(&rt, hint, want.as_slice());
}

#[test]
fn a_long_line_is_cut_on_both_sides(rt: HostRuntime) {
    let alloc = rt.alloc();
    let mut text = Vec::new(alloc);
    for _ in 0..100 {
        text.extend_from_slice(b"0123456789").expect(&rt, "memory");
    }
    let lines = excerpt(alloc, &text, 500).expect(&rt, "memory");
    let want = b"1 | ...012345678901234567890123456789012345678901234567890123456789\
0123456789012345678901234567890123456789...\n  |                                                                ^\n";
    drop(text);
    is_text(&rt, lines, want.as_slice());
}

#[test]
fn a_line_of_an_answer_is_shown(rt: HostRuntime) {
    let hint = line_hint(rt.alloc(), b"MKBTT 2\nSYMBOLS f/1\nEQUATIONS x\n", 3).expect(
        &rt, "memory",
    );
    let want =
        b"3 | EQUATIONS x\n  | ^\nThis is the first line that isn't of the form that is read here.\n";
    is_text(&rt, hint, want.as_slice());
}

#[test]
fn a_used_up_budget_says_what_to_try(rt: HostRuntime) {
    let hint = spent_hint(rt.alloc(), Spent::Commits).expect(&rt, "memory");
    let want =
        b"The budget is used up: try a greater one (--budget, up to 100000) or the other selection (--select).\n";
    is_text(&rt, hint, want.as_slice());
    let hint = refusal_hint(rt.alloc(), Kind::Limit(Bound::Name), b"", 0).expect(&rt, "memory");
    let want = b"1 | \n  | ^\nA name has at most 64 bytes.\n";
    is_text(&rt, hint, want.as_slice());
}

#[test]
fn progress_is_a_line(rt: HostRuntime) {
    let alloc = rt.alloc();
    let moment = Moment {
        ticket: 9,
        commits: 1234,
        nodes: 567,
        living: 12,
        awake: 3,
        cost: Some(89),
    };
    let line = progress_text(alloc, Progress::Lines, &moment, 17).expect(&rt, "memory");
    let want = b"mkbtt: 1234 commits, 567 nodes, 12 processes, 3 awake, cost 89, 17 s\n";
    is_text(&rt, line, want.as_slice());
    let untold = Moment {
        cost: None,
        ..moment
    };
    let line = progress_text(alloc, Progress::InPlace, &untold, 17).expect(&rt, "memory");
    let want = b"\r\x1b[Kmkbtt: 1234 commits, 567 nodes, 12 processes, 3 awake, 17 s";
    is_text(&rt, line, want.as_slice());
    let none = progress_text(alloc, Progress::Hidden, &moment, 17).expect(&rt, "memory");
    is_text(&rt, none, b"".as_slice());
    assert_eq!(rt; cleared(Progress::InPlace), b"\r\x1b[K".as_slice());
    assert!(rt; cleared(Progress::Lines).is_empty());
}

#[test]
fn quiet_shows_nothing(rt: HostRuntime) {
    let silent = Manner {
        progress: Progress::Hidden,
        explains: false,
    };
    let words = ["complete", "--progress", "--explain", "--quiet"];
    assert!(rt; manner_of(&words, false) == silent);
    assert!(rt; manner_of(&["--quiet", "complete"], true) == silent);
    assert!(rt; manner_of(&["complete"], false) == silent);
}

#[test]
fn the_words_say_what_is_shown(rt: HostRuntime) {
    let words = ["complete", "--explain", "--progress", "--workers=2"];
    let want = Manner {
        progress: Progress::Lines,
        explains: true,
    };
    assert!(rt; manner_of(&words, false) == want);
    assert!(rt; manner_of(&words, true) == want);
    let want = Manner {
        progress: Progress::InPlace,
        explains: true,
    };
    assert!(rt; manner_of(&["complete"], true) == want);
    let others = other_words(rt.alloc(), &words).expect(&rt, "memory");
    assert!(rt; others.as_slice() == ["complete", "--workers=2"].as_slice());
    drop(others);
}
