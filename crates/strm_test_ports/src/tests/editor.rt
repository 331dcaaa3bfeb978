//! Tests of keys that are typed. The lines and the bytes that are shown are worked out by hand from
//! termio(7).
use port_ldterm::{Echo, LineEditor, MAX_CANON, Modes};
use std::alloc::Global;
use std::process::Abort;

/// The modes of a terminal after login.
pub(super) const USUAL: Modes = Modes {
    icanon: true,
    echo: true,
    icrnl: true,
    onlcr: true,
};

/// A password is typed.
const UNSEEN: Modes = Modes {
    icanon: true,
    echo: false,
    icrnl: true,
    onlcr: true,
};

/// A CR is no NL.
const CR_IS_TEXT: Modes = Modes {
    icanon: true,
    echo: true,
    icrnl: false,
    onlcr: false,
};

/// An editor of the whole screen runs.
pub(super) const RAW: Modes = Modes {
    icanon: false,
    echo: false,
    icrnl: false,
    onlcr: false,
};

/// Keys go up one by one, and are shown.
const RAW_SEEN: Modes = Modes {
    icanon: false,
    echo: true,
    icrnl: true,
    onlcr: true,
};

/// The modes, the keys that are typed, the lines that go up, and the bytes that are shown.
type Row = (
    Modes,
    &'static [u8],
    &'static [&'static [u8]],
    &'static [u8],
);

const LINES: &[Row] = &[
    (USUAL, b"ls\r", &[b"ls\n"], b"ls\r\n"),
    (USUAL, b"ls\n", &[b"ls\n"], b"ls\r\n"),
    (USUAL, b"\r\r", &[b"\n", b"\n"], b"\r\n\r\n"),
    (USUAL, b"a\rb\rc", &[b"a\n", b"b\n"], b"a\r\nb\r\nc"),
    // EOF sends what is there, and at the beginning of a line nothing.
    (USUAL, b"$ \x04", &[b"$ "], b"$ "),
    (USUAL, b"\x04", &[b""], b""),
    (USUAL, b"a\x04\x04", &[b"a", b""], b"a"),
    // Without ICRNL a CR is text, and without ECHO nothing is shown.
    (CR_IS_TEXT, b"a\r\n", &[b"a\r\n"], b"a^M\r\n"),
    (UNSEEN, b"secret\x7f\x7fET\r", &[b"secrET\n"], b""),
];

const EDITS: &[Row] = &[
    (USUAL, b"lx\x7fs\r", &[b"ls\n"], b"lx\x08 \x08s\r\n"),
    (USUAL, b"lx\x08s\r", &[b"ls\n"], b"lx\x08 \x08s\r\n"),
    (
        USUAL,
        b"ab\x7f\x7f\x7fc\r",
        &[b"c\n"],
        b"ab\x08 \x08\x08 \x08c\r\n",
    ),
    (
        USUAL,
        b"rm\x15ls\r",
        &[b"ls\n"],
        b"rm\x08 \x08\x08 \x08ls\r\n",
    ),
    (USUAL, b"\x15\x7fa\r", &[b"a\n"], b"a\r\n"),
    // A control character takes two columns.
    (USUAL, b"\x03\x7f\r", &[b"\n"], b"^C\x08 \x08\x08 \x08\r\n"),
    (
        USUAL,
        b"a\t\x15\r",
        &[b"\n"],
        b"a^I\x08 \x08\x08 \x08\x08 \x08\r\n",
    ),
    // What has gone up stays.
    (USUAL, b"a\r\x7f\x15b\r", &[b"a\n", b"b\n"], b"a\r\nb\r\n"),
    (USUAL, b"a\x04\x7fb\r", &[b"a", b"b\n"], b"ab\r\n"),
];

const ONE_BY_ONE: &[Row] = &[
    (RAW, b"a\r\x7f\x04", &[b"a", b"\r", b"\x7f", b"\x04"], b""),
    (
        RAW_SEEN,
        b"a\r\x7f\x15",
        &[b"a", b"\n", b"\x7f", b"\x15"],
        b"a\r\n^?^U",
    ),
];

/// Appends what an echo shows.
fn shows(rt: &impl Abort, shown: &mut Vec<u8>, echo: Echo) {
    echo.show(shown).expect(rt, "no memory for what is shown");
}

/// Types the keys of a row. Checks the lines that go up, and what is shown.
fn holds(rt: &impl Abort, alloc: Global, (modes, keys, lines, want): Row) {
    let mut editor = LineEditor::new(modes);
    let mut shown = Vec::new(alloc);
    let mut many = 0;
    for key in keys {
        let keyed = editor.type_key(*key);
        shows(rt, &mut shown, keyed.echo);
        if let Some(line) = keyed.up {
            assert!(rt; many < lines.len() && line.as_slice() == lines[many]);
            many += 1;
        }
    }
    assert!(rt; many == lines.len() && shown.as_slice() == want);
}

fn all_hold(rt: &impl Abort, alloc: Global, rows: &[Row]) {
    for row in rows {
        holds(rt, alloc, *row);
    }
}

#[test]
fn keys_make_lines(rt: HostRuntime) {
    all_hold(&rt, rt.alloc(), LINES);
    all_hold(&rt, rt.alloc(), ONE_BY_ONE);
}

#[test]
fn keys_edit_a_line(rt: HostRuntime) {
    all_hold(&rt, rt.alloc(), EDITS);
}

/// A line that takes no more text.
const FULL: &[u8] = &[b'a'; 255];

/// Types a key some times. Returns whether nothing goes up, and each time this is the echo.
fn stays(editor: &mut LineEditor, key: u8, times: usize, echo: Echo) -> bool {
    let mut is_so = true;
    for _ in 0..times {
        let keyed = editor.type_key(key);
        is_so = is_so && keyed.up.is_none() && keyed.echo == echo;
    }
    is_so
}

/// Checks that a full line takes no more text, and still ends.
#[test]
fn a_full_line_rings_the_bell(rt: HostRuntime) {
    let mut editor = LineEditor::new(USUAL);
    assert!(&rt; stays(&mut editor, b'a', MAX_CANON, Echo::Key { key: b'a' }));
    assert!(&rt; stays(&mut editor, b'b', 2, Echo::Bell) && editor.line() == FULL);
    let keyed = editor.type_key(b'\r');
    let len = match &keyed.up {
        Some(line) => line.len(),
        None => 0,
    };
    assert!(&rt; len == 256 && editor.line().is_empty());
}

/// Checks that a line goes up as ICANON is turned off, and that a flush forgets a line.
#[test]
fn modes_send_a_line_and_a_flush_forgets_it(rt: HostRuntime) {
    let mut editor = LineEditor::new(UNSEEN);
    assert!(&rt; stays(&mut editor, b'a', 2, Echo::Nothing));
    assert!(&rt; editor.set_modes(USUAL).is_none() && editor.line() == b"aa".as_slice());
    assert!(&rt; editor.copy() == editor);
    editor.flush();
    assert!(&rt; editor.set_modes(RAW).is_none() && editor.modes() == RAW);
    assert!(&rt; editor.set_modes(UNSEEN).is_none() && stays(&mut editor, b'b', 1, Echo::Nothing));
    let sent = editor.set_modes(RAW);
    assert!(&rt; sent.is_some() && editor.line().is_empty());
}
