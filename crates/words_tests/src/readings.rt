use command_words::{Words, read_words};
use std::alloc::{AllocError, Global};
use std::test::Fail;

/// Words, with a bar between each two, and what they ask for: the file, and behind a bar the component.
static READABLE: [(&str, &str); 22] = [
    ("slintrun|main.slint", "main.slint"),
    ("slintrun|./d//main.slint", "./d//main.slint"),
    ("another|d/main.slint", "d/main.slint"),
    ("|main.slint", "main.slint"),
    ("--component|main.slint", "main.slint"),
    ("slintrun|a_b.slint", "a_b.slint"),
    ("slintrun|", ""),
    ("slintrun|-", "-"),
    ("slintrun|--|main.slint", "main.slint"),
    ("slintrun|main.slint|--", "main.slint"),
    ("slintrun|--|--component", "--component"),
    ("slintrun|--|--", "--"),
    ("slintrun|--component|A|main.slint", "main.slint|A"),
    ("slintrun|main.slint|--component|A", "main.slint|A"),
    (
        "slintrun|--component|Hidden|--|d/main.slint",
        "d/main.slint|Hidden",
    ),
    ("slintrun|--component|a_b|main.slint", "main.slint|a-b"),
    ("slintrun|--component|_a_é_|main.slint", "main.slint|_a-é-"),
    ("slintrun|--component|-|main.slint", "main.slint|-"),
    ("slintrun|--component|main.slint|-", "-|main.slint"),
    ("slintrun|--component=A|main.slint", "main.slint|A"),
    ("slintrun|main.slint|--component=-=", "main.slint|-="),
    ("slintrun|--component=|main.slint", "main.slint|"),
];

/// Words, with a bar between each two, that can't be read.
static UNREADABLE: [&str; 25] = [
    "slintrun",
    "slintrun|--",
    "slintrun|--component",
    "slintrun|--component|A",
    "slintrun|--component=A",
    "slintrun|main.slint|--component",
    "slintrun|--component|--|main.slint",
    "slintrun|--component|-A|main.slint",
    "slintrun|--component|A|--component|B|main.slint",
    "slintrun|--component=A|main.slint|--component=A",
    "slintrun|--comp|A|main.slint",
    "slintrun|--Component|A|main.slint",
    "slintrun|---component|A|main.slint",
    "slintrun|--=|main.slint",
    "slintrun|main.slint|x",
    "slintrun|--|main.slint|--",
    "slintrun|--help",
    "slintrun|-h",
    "slintrun|--version|main.slint",
    "slintrun|-V",
    "slintrun|-x",
    "slintrun|--afresh|main.slint",
    "slintrun|--budget|3|main.slint",
    "slintrun|--make|3",
    "slintrun|--table|t|main.slint",
];

fn read(alloc: Global, line: &str) -> Result<Option<Words>, Fail> {
    let mut words = Vec::new(alloc);
    for word in line.split('|') {
        words.push(String::from_str(alloc, word)?)?;
    }
    Ok(read_words(alloc, words.as_slice())?)
}

fn shown(alloc: Global, words: &Words) -> Result<String, AllocError> {
    let file = words.file.as_str();
    match &words.component {
        Some(name) => {
            let name = name.as_str();
            format!(in alloc; "{file}|{name}")
        }
        None => String::from_str(alloc, file),
    }
}

#[test]
fn readable_words_name_a_file(rt: HostRuntime) -> Result<(), Fail> {
    for (line, want) in READABLE.iter() {
        let words = read(rt.alloc(), line)?.ok_or(*line)?;
        let shown = shown(rt.alloc(), &words)?;
        assert_eq!(rt; shown.as_str(), *want, "{line}");
    }
    Ok(())
}

#[test]
fn unreadable_words_name_none(rt: HostRuntime) -> Result<(), Fail> {
    for line in UNREADABLE.iter() {
        assert!(rt; read(rt.alloc(), line)?.is_none(), "{line}");
    }
    Ok(())
}

#[test]
fn a_list_of_no_words_is_unreadable(rt: HostRuntime) -> Result<(), Fail> {
    let words: Vec<String> = Vec::new(rt.alloc());
    assert!(rt; read_words(rt.alloc(), words.as_slice())?.is_none());
    Ok(())
}
