ghost use Rattle.std.specs.Prelude.{◌≡◌, ◌<◌, [], Some, map, string_bytes};
ghost use Rattle.io_edge.specs.FileList.{file_list};
ghost use Rattle.slint_cli.specs.Statuses.{EndsAs, IsOwnStatus};

use io_edge::{MemFiles, MemSink, MemSource, Sink};
use slint_cli::{Status, Stop, slint_run};
use slint_meaning::Ending;
use std::alloc::{AllocError, Global};
use std::test::Fail;

pub(crate) const DONE: Status = Status::Ended(Ending::Done);

pub(crate) const REFUSED: Status = Status::Ended(Ending::Refused);

/// What a run is given: the words behind the program's name, the text of `main.slint`, the other files by their names, the script, the
/// most bytes that a call moves, and the numbers of the calls that fail.
#[derive(Drop)]
pub(crate) struct Given<'w, 'm, 's> {
    pub(crate) words: &'w [&'static str],
    pub(crate) source: Option<&'m str>,
    pub(crate) others: Vec<(String, Vec<u8>)>,
    pub(crate) script: &'s [u8],
    pub(crate) piece: usize,
    pub(crate) files_fail: Vec<u64>,
    pub(crate) script_fail: Vec<u64>,
    pub(crate) out_fail: Vec<u64>,
}

/// What a run came to: its status, the bytes that were taken, and the bytes of the script that are left.
#[derive(Debug, Drop)]
pub(crate) struct Came {
    pub(crate) status: Status,
    pub(crate) bytes: Vec<u8>,
    pub(crate) left: usize,
    pub(crate) misses: u64,
}

impl<'w, 'm, 's> Given<'w, 'm, 's> {
    /// A run in which no call fails.
    pub(crate) fn quiet(
        alloc: Global,
        words: &'w [&'static str],
        source: Option<&'m str>,
        script: &'s [u8],
    ) -> Given<'w, 'm, 's> {
        Given {
            words,
            source,
            others: Vec::new(alloc),
            script,
            piece: 4096,
            files_fail: Vec::new(alloc),
            script_fail: Vec::new(alloc),
            out_fail: Vec::new(alloc),
        }
    }

    pub(crate) fn run(self, alloc: Global) -> Result<Came, AllocError> {
        let mut words = vec![in alloc; String::from_str(alloc, "slintrun")?]?;
        for word in self.words {
            words.push(String::from_str(alloc, word)?)?;
        }
        self.run_words(alloc, words)
    }

    /// The same with these words, the first of which is the program's own name.
    pub(crate) fn run_words(self, alloc: Global, words: Vec<String>) -> Result<Came, AllocError> {
        let mut held = self.others;
        if let Some(source) = self.source {
            let bytes = Vec::from_slice(alloc, source.as_bytes())?;
            held.push((String::from_str(alloc, "main.slint")?, bytes))?;
        }
        let piece = self.piece.max(1);
        let script = Vec::from_slice(alloc, self.script)?;
        let mut files = MemFiles::new(alloc, held, self.files_fail);
        let mut script = MemSource::new(alloc, script, piece, self.script_fail);
        let mut out = MemSink::new(alloc, piece, self.out_fail);
        let status = slint_run(alloc, words, &mut files, &mut script, &mut out);
        let bytes = Vec::from_slice(alloc, out.bytes())?;
        let left = script.left().len();
        let misses = files.misses();
        Ok(Came {
            status,
            bytes,
            left,
            misses,
        })
    }
}

/// The usual component with this body.
fn component(alloc: Global, body: &str) -> Result<String, AllocError> {
    format!(in alloc; "export component Main inherits Window {{\n{body}\n}}\n")
}

const FIRST: &str = "    in-out property <int> a: 2;\n    in-out property <int> b: a * 3;";

#[test]
fn answers_scripts(rt: HostRuntime) -> Result<(), Fail> {
    let mixed =
        "in_out property<int>foo_bar:2+3*4;\r\n property < int > x-y : foo-bar*foo_bar ; property<int>z:x_y*100000000;";
    for (body, script, want) in [
        (
            FIRST,
            "get root.b\nset root.a 5\nget root.b\n",
            "6\nok\n15\n",
        ),
        (
            FIRST,
            "set root.b 100\nset root.a 7\nget root.b",
            "ok\nok\n100\n",
        ),
        (
            mixed,
            "get root.foo-bar\n  get\troot.x_y\t\nget root.z\r\n",
            "14\n196\n2147483647\n",
        ),
        (
            mixed,
            "set root.foo_bar -3\nget root.x-y\nget root.z",
            "ok\n9\n900000000\n",
        ),
        ("", "\n\t \n// get root.a\n", ""),
        (
            FIRST,
            "get\nget root\nget root.a x\nset root.a\nset root.a -\nget root x\nget zz x\n",
            "refused 1\nrefused 3\nrefused 1\nrefused 1\nrefused 4\nrefused 1\nrefused 1\n",
        ),
        (
            FIRST,
            "set root.a 2147483648\nset root.a -2147483648\nget root.b\n",
            "refused 4\nok\n-2147483648\n",
        ),
        (
            FIRST,
            "get root.a.b\nget other.a\nget root.zz\nset root x\nset zz x\n",
            "refused 2\nrefused 2\nrefused 2\nrefused 3\nrefused 2\n",
        ),
        (
            FIRST,
            "get root.é\n // x\nrows root.a\nGET root.a\nget root.a\r\r\n",
            "refused 2\nrefused 1\nrefused 1\nrefused 1\nrefused 1\n",
        ),
        (
            FIRST,
            "set root.a 007\nget root.a\nset root.a +5\nset root.a - 5\nget root.b\n",
            "ok\n7\nrefused 4\nrefused 4\n21\n",
        ),
    ] {
        let source = component(rt.alloc(), body)?;
        let came = Given::quiet(
            rt.alloc(),
            &["main.slint"],
            Some(source.as_str()),
            script.as_bytes(),
        )
        .run(rt.alloc())?;
        assert_eq!(rt; came.bytes.as_slice(), want.as_bytes(), "{script}");
        assert!(rt; came.status == DONE, "{script}");
    }
    // Bytes that are no text: passed over in a comment, and refused elsewhere.
    let source = component(rt.alloc(), FIRST)?;
    let script = b"//\xff\nget root.\xff\n\xc3\nset root.b 1\xff";
    let came = Given::quiet(rt.alloc(), &["main.slint"], Some(source.as_str()), script).run(
        rt.alloc(),
    )?;
    assert_eq!(rt;
        came.bytes.as_slice(),
        b"refused 1\nrefused 1\nrefused 1\n".as_slice()
    );
    Ok(())
}

#[test]
fn judges_sources(rt: HostRuntime) -> Result<(), Fail> {
    for (words, source, status, want) in [
        (
            ["main.slint"].as_slice(),
            Some("component A { }"),
            DONE,
            "refused 3\n",
        ),
        (
            &["main.slint"],
            Some("component A {\r\n property<int>true:1; } "),
            DONE,
            "refused 3\n",
        ),
        (
            &["main.slint"],
            Some(""),
            REFUSED,
            "refused 38 main.slint 1:1-1:1\n",
        ),
        (
            &["main.slint"],
            None,
            REFUSED,
            "refused 20 main.slint 1:1-1:1\n",
        ),
        (
            &["other.slint"],
            Some("component A { }"),
            REFUSED,
            "refused 20 other.slint 1:1-1:1\n",
        ),
        (
            &["main.slint"],
            Some("component A { property <int> a: zz; }"),
            REFUSED,
            "refused 34 main.slint 1:33-1:35\n",
        ),
        (
            &["main.slint"],
            Some("component A { property <int> a: a; }"),
            REFUSED,
            "refused 90 main.slint 1:1-1:1\n",
        ),
        (
            &["main.slint"],
            Some("component A { property <int> a: 1; property <int> a: 1; }"),
            REFUSED,
            "refused 30 main.slint 1:51-1:52\n",
        ),
        (
            &["main.slint"],
            Some("component A { property <int> self: 1; property <int> a: self; }"),
            REFUSED,
            "refused 40 main.slint 1:57-1:61\n",
        ),
        (
            &["main.slint"],
            Some("component A { property <int> a: 2147483648; }"),
            REFUSED,
            "refused 90 main.slint 1:1-1:1\n",
        ),
        (
            &["main.slint"],
            Some("\u{feff}/* /* a */ */component A//\n\x0c{ property/**/<int>a:1/* b */+ 2; }"),
            DONE,
            "refused 3\n",
        ),
        (
            &["main.slint"],
            Some("component A { property <int> a: (1); }"),
            REFUSED,
            "refused 90 main.slint 1:1-1:1\n",
        ),
        (
            &["main.slint"],
            Some("component A { property <int> a: 1 - 2; }"),
            REFUSED,
            "refused 90 main.slint 1:1-1:1\n",
        ),
        (
            &["main.slint"],
            Some("component A { out property <int> a: 1; }"),
            REFUSED,
            "refused 90 main.slint 1:1-1:1\n",
        ),
        (
            &["main.slint"],
            Some("component A {"),
            REFUSED,
            "refused 10 main.slint 1:14-1:14\n",
        ),
        (
            &["main.slint"],
            Some("component A"),
            REFUSED,
            "refused 10 main.slint 1:12-1:12\n",
        ),
        (
            &["main.slint"],
            Some("component"),
            REFUSED,
            "refused 10 main.slint 1:10-1:10\n",
        ),
        (
            &["main.slint"],
            Some("component Main {\n    property <bool> d: a && b || c;\n}\n"),
            REFUSED,
            "refused 10 main.slint 2:31-2:33\n",
        ),
        (
            &["main.slint"],
            Some("} #"),
            REFUSED,
            "refused 2 main.slint 1:3-1:4\n",
        ),
        (
            &["main.slint"],
            Some("component A { property <int> a: 1zz; }"),
            REFUSED,
            "refused 3 main.slint 1:33-1:36\n",
        ),
        (
            &["main.slint"],
            Some("component A { property <string> a: \"\\q\"; }"),
            REFUSED,
            "refused 4 main.slint 1:37-1:39\n",
        ),
        (
            &[],
            Some("component A { }"),
            Status::Ended(Ending::Words),
            "words\n",
        ),
        (
            &["main.slint", "x"],
            Some("component A { }"),
            Status::Ended(Ending::Words),
            "words\n",
        ),
        (
            &["-x"],
            Some("component A { }"),
            Status::Ended(Ending::Words),
            "words\n",
        ),
    ] {
        let given = Given::quiet(rt.alloc(), words, source, b"get root");
        let came = given.run(rt.alloc())?;
        assert_eq!(rt; came.bytes.as_slice(), want.as_bytes(), "{source:?}");
        assert!(rt; came.status == status, "{source:?}");
        assert_eq!(rt; came.left == 0, status == DONE, "{source:?}");
        let missed = want.starts_with("refused 20 ");
        assert_eq!(rt; came.misses, u64::from(missed), "{source:?}");
    }
    Ok(())
}

/// That many times the byte.
fn repeated(alloc: Global, byte: u8, count: usize) -> Result<Vec<u8>, AllocError> {
    vec![in alloc; byte; count]
}

#[test]
fn keeps_the_limits(rt: HostRuntime) -> Result<(), Fail> {
    let source = component(rt.alloc(), FIRST)?;
    for (front, fill, want) in [
        ("set root.a ", b'0', "ok\n"),
        ("nonsense", b'x', "refused 1\n"),
        ("get root.", b'z', "refused 2\n"),
        ("get root", b' ', "refused 3\n"),
        ("set root.a ", b'x', "refused 4\n"),
        ("\t", b' ', ""),
        ("//", b'x', ""),
    ] {
        for (length, end, want) in [
            (4096usize, "\n", want),
            (4096, "\r\n", want),
            (4096, "", want),
            (4097, "\n", "refused 7\n"),
            (4097, "\r\n", "refused 7\n"),
            (4097, "", "refused 7\n"),
        ] {
            let mut script = Vec::from_slice(rt.alloc(), front.as_bytes())?;
            let filled = length.saturating_sub(front.len());
            script.extend_from_slice(&repeated(rt.alloc(), fill, filled)?)?;
            script.extend_from_slice(end.as_bytes())?;
            let came = Given::quiet(
                rt.alloc(),
                &["main.slint"],
                Some(source.as_str()),
                &script,
            ).run(rt.alloc())?;
            assert_eq!(rt; came.bytes.as_slice(), want.as_bytes(), "{front} {length}");
        }
    }
    for (count, status, want) in [
        (16_777_216, DONE, ""),
        (16_777_217, Status::Ended(Ending::ScriptLong), "stopped 8\n"),
    ] {
        let script = repeated(rt.alloc(), b'\n', count)?;
        let mut given = Given::quiet(rt.alloc(), &["main.slint"], Some(source.as_str()), &script);
        given.piece = 100_000;
        let came = given.run(rt.alloc())?;
        assert_eq!(rt; came.bytes.as_slice(), want.as_bytes(), "{count}");
        assert!(rt; came.status == status, "{count}");
    }
    for (count, status, want) in [
        (262_144, DONE, ""),
        (262_145, REFUSED, "refused 24 main.slint 1:1-1:1\n"),
    ] {
        let mut long = String::from_str(rt.alloc(), "component A { }")?;
        for _ in 15..count {
            long.push(' ')?;
        }
        let came = Given::quiet(rt.alloc(), &["main.slint"], Some(long.as_str()), b"").run(
            rt.alloc(),
        )?;
        assert_eq!(rt; came.bytes.as_slice(), want.as_bytes(), "{count}");
        assert!(rt; came.status == status, "{count}");
    }
    Ok(())
}

#[test]
fn refuses_what_is_too_deep(rt: HostRuntime) -> Result<(), Fail> {
    for (pairs, want) in [
        (98, "refused 90 main.slint 1:1-1:1\n"),
        (99, "refused 11 main.slint 2:122-2:123\n"),
    ] {
        let mut body = String::from_str(rt.alloc(), "    property <int> a: ")?;
        for (part, count) in [("(", pairs), ("1", 1), (")", pairs), (";", 1)] {
            for _ in 0..count {
                body.push_str(part)?;
            }
        }
        let source = component(rt.alloc(), body.as_str())?;
        let came = Given::quiet(rt.alloc(), &["main.slint"], Some(source.as_str()), b"").run(
            rt.alloc(),
        )?;
        assert_eq!(rt; came.bytes.as_slice(), want.as_bytes(), "{pairs}");
    }
    Ok(())
}

/// The most bytes of a script.
const MOST_SCRIPT: usize = 16_777_216;

/// That many bytes, at least two: lines of comments, the last of which ends there.
fn comments(alloc: Global, count: usize) -> Result<Vec<u8>, AllocError> {
    let mut bytes = vec![in alloc; b'x'; count]?;
    for (at, byte) in bytes.iter_mut().enumerate() {
        let before = count - at;
        *byte = match before % 4000 {
            1 => b'\n',
            _ => b'/',
        };
    }
    Ok(bytes)
}

#[test]
fn runs_the_lines_that_end_within_the_limit(rt: HostRuntime) -> Result<(), Fail> {
    let source = component(rt.alloc(), FIRST)?;
    let too_long = Status::Ended(Ending::ScriptLong);
    for (front, tail, status, want) in [
        (10, "get root.b", DONE, "6\n"),
        (10, "get root.b\n", too_long, "stopped 8\n"),
        (11, "get root.b\n", DONE, "6\n"),
        (11, "get root.b\nx", too_long, "6\nstopped 8\n"),
        (11, "get root.b\n\n", too_long, "6\nstopped 8\n"),
        (5, "get root.b\nget root.b\n", too_long, "stopped 8\n"),
        (
            14,
            "set root.a 5\nget root.b\n",
            too_long,
            "ok\nstopped 8\n",
        ),
        (
            30,
            "set root.a 5\nget root.b\nget rootget root.b",
            too_long,
            "ok\n15\nstopped 8\n",
        ),
    ] {
        let mut script = comments(rt.alloc(), MOST_SCRIPT.saturating_sub(front))?;
        script.extend_from_slice(tail.as_bytes())?;
        let mut given = Given::quiet(rt.alloc(), &["main.slint"], Some(source.as_str()), &script);
        given.piece = 100_000;
        let came = given.run(rt.alloc())?;
        assert_eq!(rt; came.bytes.as_slice(), want.as_bytes(), "{front} {tail}");
        assert!(rt; came.status == status, "{front} {tail}");
    }
    Ok(())
}

#[test]
fn evaluates_a_long_chain(rt: HostRuntime) -> Result<(), Fail> {
    let mut body = String::from_str(rt.alloc(), "property <int> p0: 1;\n")?;
    for k in 1..5000u32 {
        let before = k - 1;
        let line = format!(in rt.alloc(); "property <int> p{k}: p{before} + p{before};\n")?;
        body.push_str(line.as_str())?;
    }
    body.push_str("property <int> sum: p1")?;
    for _ in 0..10_000u32 {
        body.push_str("+p1*1")?;
    }
    body.push(';')?;
    let source = component(rt.alloc(), body.as_str())?;
    let came = Given::quiet(
        rt.alloc(),
        &["main.slint"],
        Some(source.as_str()),
        b"get root.p4999\nset root.p4990 1\nget root.p4999\nget root.sum",
    )
    .run(rt.alloc())?;
    assert_eq!(rt;
        came.bytes.as_slice(),
        b"2147483647\nok\n512\n20002\n".as_slice()
    );
    Ok(())
}

#[test]
fn ends_at_each_failing_call(rt: HostRuntime) -> Result<(), Fail> {
    let source = component(rt.alloc(), FIRST)?;
    let script = "get root.b\nset root.a 5\nget root.b\n";
    let whole = b"6\nok\n15\n";
    for call in 0..60u64 {
        let mut given = Given::quiet(
            rt.alloc(),
            &["main.slint"],
            Some(source.as_str()),
            script.as_bytes(),
        );
        given.files_fail.push(call)?;
        let came = given.run(rt.alloc())?;
        let status = if call == 0 {
            Status::Stopped(Stop::ReadFault)
        } else {
            DONE
        };
        assert!(rt; came.status == status, "files {call}");
        assert_eq!(rt; came.bytes.is_empty(), call == 0, "files {call}");

        let mut given = Given::quiet(
            rt.alloc(),
            &["main.slint"],
            Some(source.as_str()),
            script.as_bytes(),
        );
        given.piece = 1;
        given.script_fail.push(call)?;
        let came = given.run(rt.alloc())?;
        let fails = call <= script.len() as u64;
        let status = if fails {
            Status::Stopped(Stop::ReadFault)
        } else {
            DONE
        };
        assert!(rt; came.status == status, "script {call}");
        assert_eq!(rt; came.bytes.is_empty(), fails, "script {call}");

        let mut given = Given::quiet(
            rt.alloc(),
            &["main.slint"],
            Some(source.as_str()),
            script.as_bytes(),
        );
        given.piece = 1;
        given.out_fail.push(call)?;
        let came = given.run(rt.alloc())?;
        let fails = call < whole.len() as u64;
        let status = if fails {
            Status::Stopped(Stop::SinkFault)
        } else {
            DONE
        };
        assert!(rt; came.status == status, "out {call}");
        assert_eq!(rt;
            came.bytes.len() as u64,
            call.min(whole.len() as u64),
            "out {call}"
        );
        assert!(rt; whole.starts_with(&came.bytes), "out {call}");
    }
    Ok(())
}

/// Runs the program over objects in memory on which no call fails: it comes to the outcome of the run, or lacks memory.
fn run_in_memory(
    alloc: Global,
    words: Vec<String>,
    files: Vec<(String, Vec<u8>)>,
    script: Vec<u8>,
    piece: usize,
) -> (Status, MemSink)
    requires { 0 < piece }
    ensures own { IsOwnStatus result.0 }
    ensures ends { EndsAs (map string_bytes words.items) (file_list files.items) script.items result.0 (Some []) (⟦<MemSink as Sink>⟧.taken result.1) }
{
    let mut files = MemFiles::new(alloc, files, Vec::new(alloc));
    let mut script = MemSource::new(alloc, script, piece, Vec::new(alloc));
    let mut out = MemSink::new(alloc, piece, Vec::new(alloc));
    let status = slint_run(alloc, words, &mut files, &mut script, &mut out);
    (status, out)
}

#[test]
fn comes_to_its_outcome(rt: HostRuntime) -> Result<(), Fail> {
    let mut words = vec![in rt.alloc(); String::from_str(rt.alloc(), "slintrun")?]?;
    words.push(String::from_str(rt.alloc(), "main.slint")?)?;
    let source = component(rt.alloc(), FIRST)?;
    let source = Vec::from_slice(rt.alloc(), source.as_bytes())?;
    let files = vec![in rt.alloc(); (String::from_str(rt.alloc(), "main.slint")?, source)]?;
    let script = Vec::from_slice(rt.alloc(), b"get root.b")?;
    let (status, out) = run_in_memory(rt.alloc(), words, files, script, 1);
    assert_eq!(rt; out.bytes(), b"6\n".as_slice());
    assert!(rt; status == DONE);
    Ok(())
}

#[test]
fn each_status_has_its_number(rt: HostRuntime) {
    for (status, number) in [
        (DONE, 0),
        (Status::Stopped(Stop::Memory), 1),
        (Status::Ended(Ending::Words), 2),
        (REFUSED, 3),
        (Status::Stopped(Stop::ReadFault), 6),
        (Status::Stopped(Stop::SinkFault), 7),
        (Status::Ended(Ending::ScriptLong), 8),
    ] {
        assert_eq!(rt; status.number(), number, "{status:?}");
    }
}
