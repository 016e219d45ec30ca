use crate::runs::{DONE, Given, REFUSED};
use slint_cli::{Status, Stop};
use slint_meaning::Ending;
use std::alloc::{AllocError, Global};
use std::test::Fail;

const WORDS: Status = Status::Ended(Ending::Words);

/// A file of this name and this text.
fn file(alloc: Global, name: &str, text: &str) -> Result<(String, Vec<u8>), AllocError> {
    let bytes = Vec::from_slice(alloc, text.as_bytes())?;
    Ok((String::from_str(alloc, name)?, bytes))
}

#[test]
fn refuses_the_first_fault_that_loading_meets(rt: HostRuntime) -> Result<(), Fail> {
    for (source, name, text, want) in [
        (
            "import { B } from \"b.slint\";",
            "b.slint",
            "import { A } from \"main.slint\";",
            "refused 21 b.slint 1:19-1:31\n",
        ),
        (
            "import { A } from \"main.slint\";",
            "",
            "",
            "refused 21 main.slint 1:19-1:31\n",
        ),
        (
            "import { B } from \"c.slint\";",
            "b.slint",
            "",
            "refused 20 main.slint 1:19-1:28\n",
        ),
        (
            "export * from \"c.slint\";",
            "b.slint",
            "",
            "refused 20 main.slint 1:15-1:24\n",
        ),
        (
            "import { B } from \"b.slint\";",
            "b.slint",
            "import { C } from \"c.slint\";",
            "refused 20 b.slint 1:19-1:28\n",
        ),
        (
            "import { B } from \"b.slint\";",
            "b.slint",
            "component B { }",
            "refused 22 main.slint 1:10-1:11\n",
        ),
        (
            "import { B, C } from \"b.slint\";",
            "b.slint",
            "export component B { }",
            "refused 22 main.slint 1:13-1:14\n",
        ),
        (
            "import { B } from \"b.slint\";",
            "b.slint",
            "component C { } export { C as B }",
            "refused 38 main.slint 1:1-1:1\n",
        ),
        (
            "import { C } from \"b.slint\";",
            "b.slint",
            "component C { } export { C as B }",
            "refused 22 main.slint 1:10-1:11\n",
        ),
        (
            "import { B } from \"b.slint\";",
            "b.slint",
            "component",
            "refused 10 b.slint 1:10-1:10\n",
        ),
        (
            "import { B } from \"b.slint\"; component",
            "b.slint",
            "component",
            "refused 10 main.slint 1:39-1:39\n",
        ),
        (
            "import { B } from \"../b.slint\";",
            "../b.slint",
            "export component B { }",
            "refused 25 main.slint 1:19-1:31\n",
        ),
        (
            "import { B } from \"a/../../b.slint\";",
            "b.slint",
            "",
            "refused 25 main.slint 1:19-1:36\n",
        ),
        (
            "import { B } from \"/b.slint\";",
            "/b.slint",
            "export component B { }",
            "refused 25 main.slint 1:19-1:29\n",
        ),
        (
            "import { B } from \"\";",
            "",
            "",
            "refused 25 main.slint 1:19-1:21\n",
        ),
        (
            "import { B } from \"a/.././/b.slint\"; component A { }",
            "b.slint",
            "export component B { }",
            "refused 90 main.slint 1:1-1:1\n",
        ),
        (
            "import \"../nothing.slint\"; component A { }",
            "",
            "",
            "refused 90 main.slint 1:1-1:1\n",
        ),
        (
            "import { B } from \"b.slint\";",
            "b.slint",
            "export component B { }",
            "refused 38 main.slint 1:1-1:1\n",
        ),
        (
            "struct S { a: int }",
            "",
            "",
            "refused 38 main.slint 1:1-1:1\n",
        ),
        (
            "component A { } export component B { }",
            "",
            "",
            "refused 90 main.slint 1:1-1:1\n",
        ),
    ] {
        let mut given = Given::quiet(rt.alloc(), &["main.slint"], Some(source), b"get root");
        given.others.push(file(rt.alloc(), name, text)?)?;
        let came = given.run(rt.alloc())?;
        assert_eq!(rt; came.bytes.as_slice(), want.as_bytes(), "{source}");
        assert!(rt; came.status == REFUSED, "{source}");
        assert!(rt; came.left > 0, "{source}");
        let missed = want.starts_with("refused 20 ");
        assert_eq!(rt; came.misses, u64::from(missed), "{source}");
    }
    Ok(())
}

/// The words of a line, with a bar between each two.
fn words_in(alloc: Global, line: &str) -> Result<Vec<String>, AllocError> {
    let mut words = Vec::new(alloc);
    for word in line.split('|') {
        words.push(String::from_str(alloc, word)?)?;
    }
    Ok(words)
}

#[test]
fn reads_words(rt: HostRuntime) -> Result<(), Fail> {
    let own = "import { B } from \"b.slint\"; component A_b { }";
    let alone = "component A_b { }";
    let no_root = "refused 38 main.slint 1:1-1:1\n";
    let not_built = "refused 90 main.slint 1:1-1:1\n";
    for (line, source, status, want) in [
        ("slintrun|main.slint", alone, DONE, "refused 3\n"),
        (
            "slintrun|main.slint|--component|A_b",
            alone,
            DONE,
            "refused 3\n",
        ),
        (
            "slintrun|main.slint|--component|A-b",
            alone,
            DONE,
            "refused 3\n",
        ),
        (
            "slintrun|--component|A-b|main.slint",
            alone,
            DONE,
            "refused 3\n",
        ),
        (
            "slintrun|main.slint|--component=A_b",
            alone,
            DONE,
            "refused 3\n",
        ),
        (
            "slintrun|--component=A_b|--|main.slint",
            alone,
            DONE,
            "refused 3\n",
        ),
        (
            "slintrun|main.slint|--component|a-b",
            alone,
            REFUSED,
            no_root,
        ),
        ("slintrun|main.slint|--component|B", own, REFUSED, no_root),
        (
            "slintrun|main.slint|--component|A-b",
            own,
            REFUSED,
            not_built,
        ),
        ("slintrun", alone, WORDS, "words\n"),
        ("slintrun|--component|A_b", alone, WORDS, "words\n"),
        ("slintrun|main.slint|--component", alone, WORDS, "words\n"),
        (
            "slintrun|main.slint|--component|A_b|--component|A_b",
            alone,
            WORDS,
            "words\n",
        ),
        ("slintrun|main.slint|main.slint", alone, WORDS, "words\n"),
        ("slintrun|main.slint|--help", alone, WORDS, "words\n"),
        ("slintrun|main.slint|-c", alone, WORDS, "words\n"),
    ] {
        let mut given = Given::quiet(rt.alloc(), &["main.slint"], Some(source), b"get root");
        given
            .others
            .push(file(rt.alloc(), "b.slint", "export component B { }")?)?;
        let came = given.run_words(rt.alloc(), words_in(rt.alloc(), line)?)?;
        assert_eq!(rt; came.bytes.as_slice(), want.as_bytes(), "{line}");
        assert!(rt; came.status == status, "{line}");
        assert_eq!(rt; came.left == 0, status == DONE, "{line}");
    }
    Ok(())
}

#[test]
fn takes_a_file_of_two_names_once(rt: HostRuntime) -> Result<(), Fail> {
    let source =
        "import { B } from \"x/../b.slint\"; import { B as C } from \"./b.slint\"; component A { }";
    for (call, status, want) in [
        (0, Status::Stopped(Stop::ReadFault), ""),
        (1, Status::Stopped(Stop::ReadFault), ""),
        (2, REFUSED, "refused 90 main.slint 1:1-1:1\n"),
    ] {
        let mut given = Given::quiet(rt.alloc(), &["main.slint"], Some(source), b"");
        given
            .others
            .push(file(rt.alloc(), "b.slint", "export component B { }")?)?;
        given.files_fail.push(call)?;
        let came = given.run(rt.alloc())?;
        assert_eq!(rt; came.bytes.as_slice(), want.as_bytes(), "{call}");
        assert!(rt; came.status == status, "{call}");
    }
    Ok(())
}

#[test]
fn ends_at_each_failing_read_of_a_load(rt: HostRuntime) -> Result<(), Fail> {
    let source = "import { A } from \"a.slint\"; import { B } from \"b.slint\"; component Main { }";
    for call in 0..7u64 {
        let mut given = Given::quiet(rt.alloc(), &["main.slint"], Some(source), b"get root");
        for (name, text) in [
            (
                "a.slint",
                "import { C } from \"c.slint\"; export component A { }",
            ),
            (
                "b.slint",
                "export * from \"f/d.slint\"; import { C } from \"c.slint\";",
            ),
            ("c.slint", "export component C { }"),
            (
                "f/d.slint",
                "import { C } from \"../c.slint\"; export component B { }",
            ),
        ] {
            given.others.push(file(rt.alloc(), name, text)?)?;
        }
        given.files_fail.push(call)?;
        let came = given.run(rt.alloc())?;
        let (status, want) = if call < 5 {
            (Status::Stopped(Stop::ReadFault), "")
        } else {
            (REFUSED, "refused 90 main.slint 1:1-1:1\n")
        };
        assert!(rt; came.status == status, "{call}");
        assert_eq!(rt; came.bytes.as_slice(), want.as_bytes(), "{call}");
        assert!(rt; came.left > 0, "{call}");
    }
    Ok(())
}

#[test]
fn loads_at_most_64_files(rt: HostRuntime) -> Result<(), Fail> {
    let alloc = rt.alloc();
    for (count, want) in [
        (63u32, "refused 90 main.slint 1:1-1:1\n"),
        (64, "refused 23 main.slint 64:26-64:37\n"),
    ] {
        let mut source = String::new(alloc);
        let mut others = Vec::new(alloc);
        for number in 1..count + 1 {
            let line = format!(in alloc;
                "import {{ C as C{number} }} from \"f{number}.slint\";\n"
            )?;
            source.push_str(line.as_str())?;
            let name = format!(in alloc; "f{number}.slint")?;
            others.push(file(alloc, name.as_str(), "export component C { }")?)?;
        }
        source.push_str("component A { }")?;
        let mut given = Given::quiet(alloc, &["main.slint"], Some(source.as_str()), b"");
        given.others = others;
        let came = given.run(alloc)?;
        assert_eq!(rt; came.bytes.as_slice(), want.as_bytes(), "{count}");
        assert!(rt; came.status == REFUSED, "{count}");
    }
    Ok(())
}
