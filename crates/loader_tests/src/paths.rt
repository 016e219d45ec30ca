use import_paths::{file_meant, is_below};
use slint_base::Memory;
use std::alloc::Global;

/// The main file, the importing one, a path that is written in it, and the name of the file that it means; none where it leads outside.
static PATHS: [(&str, &str, &str, Option<&str>); 40] = [
    ("main.slint", "main.slint", "b.slint", Some("b.slint")),
    ("main.slint", "main.slint", "./b.slint", Some("b.slint")),
    ("main.slint", "main.slint", "a/b.slint", Some("a/b.slint")),
    ("main.slint", "main.slint", "a//b.slint", Some("a/b.slint")),
    ("main.slint", "main.slint", "a/./b.slint", Some("a/b.slint")),
    ("main.slint", "main.slint", ".//./b.slint", Some("b.slint")),
    ("main.slint", "main.slint", "a/../b.slint", Some("b.slint")),
    (
        "main.slint",
        "main.slint",
        "a/b/../../c.slint",
        Some("c.slint"),
    ),
    ("main.slint", "main.slint", "../b.slint", None),
    ("main.slint", "main.slint", "..", None),
    ("main.slint", "main.slint", "a/../../b.slint", None),
    ("main.slint", "main.slint", "a/../../a/b.slint", None),
    (
        "main.slint",
        "a/b.slint",
        "../main.slint",
        Some("main.slint"),
    ),
    ("main.slint", "a/b.slint", "c.slint", Some("a/c.slint")),
    ("main.slint", "a/b.slint", "../../c.slint", None),
    ("main.slint", "main.slint", "", None),
    ("main.slint", "main.slint", "/b.slint", None),
    ("main.slint", "main.slint", "@b/c.slint", None),
    ("main.slint", "main.slint", "b@c.slint", Some("b@c.slint")),
    ("main.slint", "main.slint", "a\\b.slint", None),
    ("main.slint", "main.slint", "c:b.slint", None),
    ("main.slint", "main.slint", ".", Some("")),
    ("main.slint", "main.slint", "a/", Some("a")),
    (
        "main.slint",
        "main.slint",
        ".../b.slint",
        Some(".../b.slint"),
    ),
    ("main.slint", "main.slint", "..a/.b", Some("..a/.b")),
    (
        "a/b/main.slint",
        "a/b/main.slint",
        "c.slint",
        Some("a/b/c.slint"),
    ),
    ("a/b/main.slint", "a/b/main.slint", ".", Some("a/b/")),
    ("a/b/main.slint", "a/b/main.slint", "../c.slint", None),
    ("a/b/main.slint", "a/b/main.slint", "../b/c.slint", None),
    (
        "a/b/main.slint",
        "a/b/d/e.slint",
        "../c.slint",
        Some("a/b/c.slint"),
    ),
    (
        "a/b/main.slint",
        "a/b/d/e.slint",
        "f/g.slint",
        Some("a/b/d/f/g.slint"),
    ),
    ("a/b/main.slint", "a/b/d/e.slint", "../../b/c.slint", None),
    (
        "a/b/main.slint",
        "a/b/d/e/f.slint",
        "../../c.slint",
        Some("a/b/c.slint"),
    ),
    (
        "a//b/main.slint",
        "a//b/main.slint",
        "c//d.slint",
        Some("a//b/c/d.slint"),
    ),
    (
        "./a/../main.slint",
        "./a/../main.slint",
        "b.slint",
        Some("./a/../b.slint"),
    ),
    ("./a/../main.slint", "./a/../main.slint", "../b.slint", None),
    ("/x/m.slint", "/x/m.slint", "n.slint", Some("/x/n.slint")),
    ("/x/m.slint", "/x/m.slint", "/x/n.slint", None),
    (
        "/x/m.slint",
        "/x/y/n.slint",
        "../m.slint",
        Some("/x/m.slint"),
    ),
    ("/m.slint", "/m.slint", "../m.slint", None),
];

/// What a path means in a file that lies below the main file's folder; none in any other.
fn meant_below(
    alloc: Global,
    main: &str,
    importer: &str,
    path: &str,
) -> Result<Option<String>, Memory> {
    if !is_below(main, importer) {
        return Ok(None);
    }
    file_meant(alloc, main, importer, path)
}

#[test]
fn paths_mean_files(rt: HostRuntime) -> Result<(), Memory> {
    for (main, importer, path, meant) in PATHS {
        assert!(rt;
            is_below(main, importer),
            "{importer:?} below the folder of {main:?}"
        );
        let found = meant_below(rt.alloc(), main, importer, path)?;
        assert_eq!(rt;
            found.as_deref(),
            meant,
            "{path:?} in {importer:?} of {main:?}"
        );
    }
    Ok(())
}

/// Names, and whether they begin with the folder of a main file.
static BELOW: [(&str, &str, bool); 7] = [
    ("main.slint", "b.slint", true),
    ("main.slint", "/b.slint", true),
    ("a/main.slint", "a/b.slint", true),
    ("a/main.slint", "a/b/c.slint", true),
    ("a/main.slint", "a", false),
    ("a/main.slint", "ab.slint", false),
    ("a/main.slint", "./a/b.slint", false),
];

#[test]
fn names_lie_below_folders(rt: HostRuntime) {
    for (main, name, below) in BELOW {
        assert_eq!(rt;
            is_below(main, name),
            below,
            "{name:?} below the folder of {main:?}"
        );
    }
}
