//! Lines of logs as they are read and written.

use cap_log::{read_line, write_line};

// Each is written as it was read.
const LINES: [&str; 27] = [
    "capcheck 1",
    "capcheck 2",
    "mode strict",
    "mode clear",
    "root c1 ffff1ffffc0180040000000000000000",
    "root c31 ffffffffffffffffffffffffffffffff",
    "root @0000000000000000 00000000000000000000000000000000",
    "root @fffffffffffffff0 ffff1ffffc0180040000000000000000",
    "end 0",
    "end 4294967295",
    "move c2 c31 = 1 ffff1ffffc0180040000000000000000",
    "cleartag c10 c0 = 0 00000000000000000000000000000000",
    "seal c1 c0 c31 = 1 ffff1ffffc0180040000000000000000",
    "unseal c31 c31 c0 = 0 00000000000000000000000000000000",
    "setbounds c3 c2 0000000000000000 = 1 ffff1ffffc0180040000000000000000",
    "setboundsexact c31 c31 ffffffffffffffff = 1 ffff1ffffc0180040000000000000000",
    "setaddr c2 c1 000000000003fffb = 0 00000000000000000000000000000000",
    "andperm c4 c2 000000000007fffe = 1 ffff1ffffc0180040000000000000000",
    "lc c3 c1 0 = 1 ffff1ffffc0180040000000000000000",
    "sc c0 c31 -2048",
    "load c1 -8 8 = ffffffffffffffff",
    "load c1 10 2 = 1234",
    "store c1 2047 1 ff",
    "store c1 8 4 12345678",
    "move c1 c2 = 1 ffff1ffffc0180040000000000000000",
    "root c31 ffff1ffffc0180040000000000000000",
    "root @fffffffffffffff0 00000000000000000000000000000000",
];

// None is a line.
const NO_LINES: [&str; 31] = [
    "",
    "end 4294967296",
    "end 01",
    "end +1",
    "end ",
    "end",
    "capcheck 3",
    "root c0 ffff1ffffc0180040000000000000000",
    "root @0000000000000008 ffff1ffffc0180040000000000000000",
    "move c0 c1 = 1 ffff1ffffc0180040000000000000000",
    "move c1 c32 = 1 ffff1ffffc0180040000000000000000",
    "move c01 c1 = 1 ffff1ffffc0180040000000000000000",
    "move  c1 c2 = 1 ffff1ffffc0180040000000000000000",
    "move c1 c2 = 1 FFFF1ffffc0180040000000000000000",
    "move c1 c2 = 2 ffff1ffffc0180040000000000000000",
    "move c1 c2 = 1 ffff1ffffc0180040000000000000000 ",
    "Move c1 c2 = 1 ffff1ffffc0180040000000000000000",
    "load c1 -0 1 = 00",
    "sc c1 c1 2048",
    "sc c1 c1 -2049",
    "sc c1 c1 +1",
    "sc c1  c1 0",
    "load c1 0 3 = 000000",
    "load c1 0 2 = 00",
    "store c1 0 1 FF",
    "store c1 0 1 = 00",
    "end 0\n",
    "end 0\nend 0",
    "end\n0",
    "xxxxxxxxxxxxxxxxxxxxxxxxxxxxxxxxxxxxxxxxxxxxxxxxxxxxxxxxxxxxxxxxxxxxxxxxxxxxxxxxxxxxxxxxxxxxxxx",
    "xxxxxxxxxxxxxxxxxxxxxxxxxxxxxxxxxxxxxxxxxxxxxxxxxxxxxxxxxxxxxxxxxxxxxxxxxxxxxxxxxxxxxxxxxxxxxxxx",
];

// Whether a text is a line, and is written as it was read.
fn is_rewritten(text: &str) -> bool {
    let Some(line) = read_line(text.as_bytes()) else {
        return false;
    };
    let mut buffer = [b'.'; 96];
    let length = write_line(&line, &mut buffer);
    buffer[..length].strip_suffix(b"\n") == Some(text.as_bytes())
}

#[test]
fn lines_are_written_as_they_were_read(rt: HostRuntime) {
    for text in LINES {
        assert!(rt; is_rewritten(text), "{text}");
    }
}

#[test]
fn other_texts_are_no_lines(rt: HostRuntime) {
    for text in NO_LINES {
        assert!(rt; read_line(text.as_bytes()).is_none(), "{text}");
    }
}
