// The examples E1 to E11 of document 01, E1's twin of document 02's C-14, one for each event of its C-12, and a book rewritten under its C-13,
// run over the core: for each what the document says, and beside it the line that its last call writes.
#![tactic(auto)]

use script::Player;
use std::io;
use std::io::Write;

// What a document says of an example, and the lines of its script; the example begins where the one before it ended.
#[derive(Clone, Copy)]
struct Example {
    said: &'static str,
    script: &'static [&'static str],
}

const EXAMPLES: [Example; 30] = [
    Example {
        said: "E1: document 01: line 1 \"abcdefgh\", position and end (1,2,3), one event",
        script: &["establish", "split", "puts 6162636465666768696a"],
    },
    Example {
        said: "E2: document 01: \"abcdefgh\", stop 2, (1,1,9)",
        script: &["reset", "gets 20 -"],
    },
    Example {
        said: "E3: document 01: empty, stop 2",
        script: &["gets 20 -"],
    },
    Example {
        said: "E4: document 01: \"ij\", stop 3, two events, one answer",
        script: &["reset", "gets 20 -", "row 20000000", "gets 20 -"],
    },
    Example {
        said: "E5: document 01: end (1,1,2)",
        script: &[
            "establish",
            "split",
            "puts 6162636465666768696a",
            "reset",
            "putc 5a",
        ],
    },
    Example {
        said: "E1, its twin: document 02: refusal 16, line end at (1,1,9)",
        script: &["establish", "puts 6162636465666768696a"],
    },
    Example {
        said: "E1, its twin, the line: document 02: \"abcdefgh\" stays, and nothing more is stored",
        script: &["view 1 1 -"],
    },
    Example {
        said: "E6: document 01: end still (1,1,7)",
        script: &["establish", "puts 616263646566", "setc 3", "putc 58"],
    },
    Example {
        said: "E6, the line: document 01: \"abXdef\"",
        script: &["view 1 1 -"],
    },
    Example {
        said: "E7: document 01: refusal 10",
        script: &["shape 2 3 10", "lend 60 6 2", "establish", "puti 7"],
    },
    Example {
        said: "E8: document 01: done",
        script: &["shape 2 3 11", "lend 66 6 2", "establish", "puti 7"],
    },
    Example {
        said: "E8, the line: document 01: nine blanks and \"+7\"",
        script: &["view 1 1 -"],
    },
    Example {
        said: "E9: document 01: whole(7,3) \" +7\"",
        script: &["whole 7 3 3"],
    },
    Example {
        said: "E9: document 01: whole(7,-3) \"  7\"",
        script: &["whole 7 -3 3"],
    },
    Example {
        said: "E9: document 01: whole(7,1) \"*\"",
        script: &["whole 7 1 1"],
    },
    Example {
        said: "E9: document 01: whole(-7,-1) \"*\"",
        script: &["whole -7 -1 1"],
    },
    Example {
        said: "E10: document 01: whole(0,0) \"0\"",
        script: &["whole 0 0 1"],
    },
    Example {
        said: "E10: document 01: whole(123,3) \"***\"",
        script: &["whole 123 3 3"],
    },
    Example {
        said: "E11: document 01: refusal 9",
        script: &["whole -2147483648 0 20"],
    },
    Example {
        said: "E11: document 01: refusal 9",
        script: &["establish", "puti -2147483648"],
    },
    Example {
        said: "Event: document 02: 14, logical end at (1,1,4)",
        script: &[
            "shape 1 1 3",
            "lend 3 1 1",
            "establish",
            "puts 616263",
            "reset",
            "gets 3 -",
            "getc",
        ],
    },
    Example {
        said: "Event: document 02: 15, physical end at (2,1,1)",
        script: &[
            "shape 1 1 1",
            "lend 1 1 1",
            "establish",
            "split",
            "puts 6161",
        ],
    },
    Example {
        said: "Event: document 02: 11, page end at (1,2,1)",
        script: &[
            "shape 2 1 2",
            "lend 4 2 2",
            "establish",
            "puts 6162",
            "newline",
            "row 80000000",
            "puts 63",
        ],
    },
    Example {
        said: "Event: document 02: 11, line end at (1,1,9)",
        script: &[
            "shape 2 3 8",
            "lend 48 6 2",
            "establish",
            "row 80000000",
            "puts 6162636465666768696a",
        ],
    },
    Example {
        said: "Event: document 02: 8, character at (1,1,1)",
        script: &["establish", "putc 0a"],
    },
    Example {
        said: "Event: document 02: 9, value at (1,1,11)",
        script: &[
            "shape 1 1 12",
            "lend 12 1 1",
            "establish",
            "puts 3231343734383336343820",
            "reset",
            "geti",
        ],
    },
    Example {
        said: "Event, nested: document 02: 14, the innermost, logical end at (2,1,3)",
        script: &[
            "shape 2 1 2",
            "lend 4 2 2",
            "establish",
            "split",
            "puts 61626364",
            "reset",
            "gets 20 -",
            "newline",
            "row 20000000 30000000",
            "getc",
        ],
    },
    Example {
        said: "Every night: document 02: line 1, cut to 3, takes 8 characters again, (1,1,9), no event",
        script: &[
            "shape 2 3 8",
            "lend 48 6 2",
            "row",
            "establish",
            "puts 616263",
            "newline",
            "puts 6465",
            "reset",
            "puts 7065726d69742061",
        ],
    },
    Example {
        said: "Every night: document 02: a first line of length 0 stays so, (1,2,3), one event",
        script: &[
            "establish",
            "split",
            "newline",
            "puts 6162",
            "reset",
            "puts 6364",
        ],
    },
    Example {
        said: "Every night: document 02: an integer on a line that is still short, refusal 10",
        script: &[
            "shape 1 2 12",
            "lend 24 2 1",
            "establish",
            "puts 616263",
            "newline",
            "puts 64",
            "reset",
            "puti 7",
        ],
    },
];

// The most that a line tells here.
const OUTPUT: usize = 4096;

// Plays an example, and writes what is said of it and what its last line tells.
fn play<W: Write>(writer: &mut W, player: &mut Player, example: Example) -> io::Result<()> {
    let Example { said, script } = example;
    let mut output = io::Cursor::new([0; OUTPUT]);
    write!(output, "{said}: ")?;
    let start = output.position();
    for line in script {
        output.set_position(start);
        if let Ok(told) = player.play(line.as_bytes()) {
            write!(output, "{told}")?;
        }
    }
    writer.write_all(console::written(&output))
}

fn main(rt: HostRuntime) -> io::Result<()> {
    let mut writer = rt.stdout();
    let mut player = Player::new();
    for example in EXAMPLES {
        play(&mut writer, &mut player, example)?;
    }
    Ok(())
}
