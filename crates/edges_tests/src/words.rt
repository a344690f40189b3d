// Words of command lines, with ample memory.
use mkbtt_words::{Format, Mode, Selection, Words, WordsFault, read_words, refusal_message};
use std::alloc::Global;
use std::test::Fail;

fn words(mode: Mode, workers: u8, budget: u32, number: u32) -> Words {
    Words {
        mode,
        workers,
        budget,
        number,
        format: Format::Answer,
        selection: Selection::Stated,
    }
}

fn reads(alloc: Global, line: &[&str], want: Words) -> bool {
    read_words(alloc, line) == Ok(want)
}

fn refuses(alloc: Global, line: &[&str]) -> bool {
    read_words(alloc, line) == Err(WordsFault::Refused)
}

#[test]
fn every_mode_has_the_standard_numbers(rt: HostRuntime) {
    for (name, mode) in [
        ("complete", Mode::Complete),
        ("rounds", Mode::Rounds),
        ("check", Mode::Check),
        ("convert", Mode::Convert),
        ("reduce", Mode::Reduce),
        ("decide", Mode::Decide),
        ("simplify", Mode::Simplify),
        ("summary", Mode::Summary),
        ("journal", Mode::Journal),
        ("replay", Mode::Replay),
        ("gen", Mode::Gen),
    ] {
        let want = words(mode, 4, 20_000, 8);
        assert!(rt; reads(rt.alloc(), &[name], want), "{name}");
    }
}

#[test]
fn options_stand_in_any_place(rt: HostRuntime) {
    let alloc = rt.alloc();
    let three = words(Mode::Complete, 3, 20_000, 8);
    assert!(rt; reads(alloc, &["complete", "--workers=3"], three));
    assert!(rt; reads(alloc, &["--workers", "3", "complete"], three));
    assert!(rt; reads(alloc, &["complete", "--workers", "03"], three));
    assert!(rt; reads(alloc, &["--workers=+3", "complete"], three));
    let least = words(Mode::Gen, 1, 1, 1);
    assert!(rt;
        reads(
            alloc,
            &["--number", "1", "gen", "--budget=1", "--workers", "1"],
            least
        )
    );
    let most = words(Mode::Summary, 16, 100_000, 64);
    assert!(rt;
        reads(
            alloc,
            &[
                "--workers=16",
                "--budget",
                "100000",
                "--number=64",
                "--",
                "summary",
            ],
            most
        )
    );
}

#[test]
fn each_selection_has_a_name(rt: HostRuntime) {
    let alloc = rt.alloc();
    for (name, selection) in [("stated", Selection::Stated), ("size", Selection::Size)] {
        let want = Words {
            selection,
            ..words(Mode::Complete, 4, 20_000, 8)
        };
        assert!(rt;
            reads(alloc, &["complete", "--select", name], want),
            "{name}"
        );
    }
    assert!(rt; refuses(alloc, &["complete", "--select", "sizes"]));
}

#[test]
fn each_format_has_a_name(rt: HostRuntime) {
    let alloc = rt.alloc();
    for (name, format) in [
        ("answer", Format::Answer),
        ("trs", Format::Trs),
        ("dot", Format::Dot),
    ] {
        let want = Words {
            format,
            ..words(Mode::Convert, 4, 20_000, 8)
        };
        assert!(rt; reads(alloc, &["convert", "--to", name], want), "{name}");
    }
    assert!(rt;
        reads(
            alloc,
            &["--to=answer", "gen"],
            words(Mode::Gen, 4, 20_000, 8)
        )
    );
}

#[test]
fn other_words_are_refused(rt: HostRuntime) {
    let alloc = rt.alloc();
    assert!(rt; refuses(alloc, &[]));
    for word in [
        "--help",
        "-h",
        "help",
        "--version",
        "Complete",
        "complet",
        "",
        "--workers",
        "--workers=3",
    ] {
        assert!(rt; refuses(alloc, &[word]), "{word}");
    }
    for word in [
        "--workers=0",
        "--workers=17",
        "--workers=257",
        "--workers=-1",
        "--workers=",
        "--workers=three",
        "--budget=0",
        "--budget=100001",
        "--number=0",
        "--number=65",
        "--numbers=1",
        "--to=",
        "--to=Trs",
        "--to=svg",
        "--to",
        "--help",
        "-w",
        "complete",
        "check",
    ] {
        assert!(rt; refuses(alloc, &["complete", word]), "complete {word}");
    }
    assert!(rt; refuses(alloc, &["complete", "--workers", "17"]));
    assert!(rt; refuses(alloc, &["--number", "complete"]));
    assert!(rt; refuses(alloc, &["complete", "--workers=3", "--workers=3"]));
    assert!(rt; refuses(alloc, &["convert", "--to=dot", "--to", "trs"]));
}

fn says(alloc: Global, line: &[&str], want: &str) -> bool {
    match refusal_message(alloc, line) {
        Ok(Some(message)) => message.as_str() == want,
        _ => false,
    }
}

#[test]
fn a_name_in_no_table_is_told(rt: HostRuntime) {
    let alloc = rt.alloc();
    assert!(rt;
        says(
            alloc,
            &["complet"],
            "error: invalid value 'complet' for '<mode>'\n  [possible values: complete, rounds, check, convert, reduce, decide, simplify, summary, journal, replay, gen]\n\n  tip: a similar value exists: 'complete'\n\nFor more information, try '--help'.\n"
        )
    );
    assert!(rt;
        says(
            alloc,
            &["convert", "--to=svg"],
            "error: invalid value 'svg' for '--to <to>'\n  [possible values: answer, trs, dot]\n\nFor more information, try '--help'.\n"
        )
    );
    assert!(rt;
        says(
            alloc,
            &["convert", "--select="],
            "error: a value is required for '--select <select>' but none was supplied\n  [possible values: stated, size]\n\nFor more information, try '--help'.\n"
        )
    );
    assert!(rt;
        says(
            alloc,
            &["complet", "--workers=x"],
            "error: invalid value 'x' for '--workers <workers>': invalid digit found in string\n\nFor more information, try '--help'.\n"
        )
    );
    assert!(rt; refusal_message(alloc, &["gen"]) == Ok(None));
}
