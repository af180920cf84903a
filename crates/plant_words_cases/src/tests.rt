//! Command lines: what they ask for, and what is told of those that ask for nothing.
use plant_words::{ArgumentsRefusal, read_arguments};
use std::alloc::Global;
use std::test::Fail;

fn words_of(alloc: Global, text: &str) -> Result<Vec<String>, Fail> {
    let mut words = Vec::new(alloc);
    if text.is_empty() {
        return Ok(words);
    }
    for word in text.split('|') {
        words.push(String::from_str(alloc, word)?)?;
    }
    Ok(words)
}

/// What is read of words, as text.
fn read(alloc: Global, text: &str) -> Result<String, Fail> {
    let words = words_of(alloc, text)?;
    match read_arguments(alloc, words.as_slice()) {
        Ok(command) => Ok(format!(in alloc; "{command:?}")?),
        Err(ArgumentsRefusal::Shown(text)) => Ok(format!(in alloc; "shown: {text}")?),
        Err(ArgumentsRefusal::Usage(line)) => Ok(format!(in alloc; "usage: {line}")?),
        Err(ArgumentsRefusal::NoMemory) => Ok(format!(in alloc; "out of memory")?),
    }
}

#[test]
fn asked_words(rt: HostRuntime) -> Result<(), Fail> {
    let rows = [
        (
            "init|--dir|data",
            "Init(Init { folder: \"data\", schema: None })",
        ),
        (
            "init|--schema|tables.txt|--dir|my data",
            "Init(Init { folder: \"my data\", schema: Some(\"tables.txt\") })",
        ),
        ("init|--dir|", "Init(Init { folder: \"\", schema: None })"),
        (
            "once",
            "Once(Once { folder: None, schema: None, clock: None, batch: false })",
        ),
        (
            "once|--dir|d|--schema|s|--clock|2000.01.01D00:00:01|--step|7|--batch",
            "Once(Once { folder: Some(\"d\"), schema: Some(\"s\"), clock: Some(Ticking { start: 1000000000, step: 7 }), batch: true })",
        ),
        (
            "once|--batch|--step|007|--clock|2000.01.01D00:00:01|--schema|s|--dir|d",
            "Once(Once { folder: Some(\"d\"), schema: Some(\"s\"), clock: Some(Ticking { start: 1000000000, step: 7 }), batch: true })",
        ),
        (
            "once|--clock|2024.01.02D09:30:00.000000000",
            "Once(Once { folder: None, schema: None, clock: Some(Ticking { start: 757503000000000000, step: 0 }), batch: false })",
        ),
        (
            "once|--step|86400000000000|--clock|0Np",
            "Once(Once { folder: None, schema: None, clock: Some(Ticking { start: -9223372036854775808, step: 86400000000000 }), batch: false })",
        ),
        (
            "once|--clock|0Wp",
            "Once(Once { folder: None, schema: None, clock: Some(Ticking { start: 9223372036854775807, step: 0 }), batch: false })",
        ),
        (
            "once|--step|5|--dir|a=b",
            "Once(Once { folder: Some(\"a=b\"), schema: None, clock: None, batch: false })",
        ),
        (
            "serve|--port|5010|--sessions|1000000|--dir|d",
            "Serve(Serve { port: 5010, sessions: 1000000, folder: Some(\"d\"), schema: None, batch: false })",
        ),
        (
            "serve|--batch|--schema|s|--sessions|1|--port|65535",
            "Serve(Serve { port: 65535, sessions: 1, folder: None, schema: Some(\"s\"), batch: true })",
        ),
        (
            "serve|--sessions|007|--port|01",
            "Serve(Serve { port: 1, sessions: 7, folder: None, schema: None, batch: false })",
        ),
    ];
    for (text, wanted) in rows {
        let found = read(rt.alloc(), text)?;
        assert!(rt; found.as_str() == wanted, "{text}: {found}");
    }
    Ok(())
}

#[test]
fn faulty_words(rt: HostRuntime) -> Result<(), Fail> {
    let step =
        "usage: the value of '--step <N>' is not a number from 0 to 86400000000000 in decimal digits";
    let clock =
        "usage: the value of '--clock <TIMESTAMP>' is not a timestamp, as 2024.01.02D09:30:00.000000000 is";
    let port =
        "usage: the value of '--port <PORT>' is not a number from 1 to 65535 in decimal digits";
    let sessions =
        "usage: the value of '--sessions <N>' is not a number from 1 to 1000000 in decimal digits";
    let form =
        "usage: an option is written '--name VALUE', after the command, and its value does not begin with '-'";
    let rows = [
        (
            "",
            "usage: 'plant' requires a subcommand but one was not provided [subcommands: init, once, serve, help]",
        ),
        ("go", "usage: unrecognized subcommand 'go'"),
        (
            "init",
            "usage: the following required arguments were not provided: --dir <FOLDER>",
        ),
        (
            "init|--dir",
            "usage: a value is required for '--dir <FOLDER>' but none was supplied",
        ),
        (
            "init|--dir|a|--dir|b",
            "usage: the argument '--dir <FOLDER>' cannot be used multiple times",
        ),
        (
            "init|--dir|a|--clock|0Np",
            "usage: unexpected argument '--clock' found",
        ),
        (
            "once|--batch|--batch",
            "usage: the argument '--batch' cannot be used multiple times",
        ),
        ("once|--dir|-x", "usage: unexpected argument '-x' found"),
        ("once|data", "usage: unexpected argument 'data' found"),
        (
            "--dir|data|once",
            "usage: unexpected argument '--dir' found",
        ),
        ("once|--step|+5", step),
        ("once|--step|", step),
        ("once|--step|86400000000001", step),
        ("once|--step|99999999999999999999999", step),
        ("once|--clock|5", clock),
        ("once|--clock|2024.01.02", clock),
        ("once|--clock|2024.01.02D09:30 ", clock),
        ("once|--clock|0Np 0Np", clock),
        ("once|--dir=data", form),
        ("once|--dir|-", form),
        (
            "once|--port|5010",
            "usage: unexpected argument '--port' found",
        ),
        (
            "serve|--port|5010",
            "usage: the following required arguments were not provided: --sessions <N>",
        ),
        (
            "serve|--port|5010|--sessions|2|--clock|0Np",
            "usage: unexpected argument '--clock' found",
        ),
        (
            "serve|--port|5010|--port|5011|--sessions|2",
            "usage: the argument '--port <PORT>' cannot be used multiple times",
        ),
        ("serve|--port|0|--sessions|2", port),
        ("serve|--port|65536|--sessions|2", port),
        ("serve|--port|+80|--sessions|2", port),
        ("serve|--port|http|--sessions|2", port),
        ("serve|--port|5010|--sessions|0", sessions),
        ("serve|--port|5010|--sessions|1000001", sessions),
        ("serve|--port|5010|--sessions|1e6", sessions),
        ("serve|--port=5010|--sessions|2", form),
    ];
    for (text, wanted) in rows {
        let found = read(rt.alloc(), text)?;
        assert!(rt; found.as_str() == wanted, "{text}: {found}");
    }
    Ok(())
}

#[test]
fn help_and_version(rt: HostRuntime) -> Result<(), Fail> {
    let rows = [
        ("--version", "shown: plant 0.1.0\n"),
        ("--help", "Usage: plant <COMMAND>\n"),
        ("--help", "\n  init   Formats a folder for a plant\n"),
        (
            "--help",
            "\n  plant once --dir data < messages > responses\n",
        ),
        (
            "init|--help",
            "Usage: plant init [OPTIONS] --dir <FOLDER>\n",
        ),
        ("once|--help", "Usage: plant once [OPTIONS]\n"),
        ("once|--help", "\n      --dir <FOLDER> "),
        ("once|--help", "\n      --schema <FILE> "),
        ("once|--help", "\n      --clock <TIMESTAMP> "),
        ("once|--help", "\n      --step <N> "),
        ("once|--help", "\n      --batch "),
        (
            "serve|--help",
            "Usage: plant serve [OPTIONS] --port <PORT> --sessions <N>\n",
        ),
        ("serve|--help", "\n      --port <PORT> "),
        ("serve|--help", "\n      --sessions <N> "),
        ("serve|--help", "\n      --dir <FOLDER> "),
        ("serve|--help", "\n      --schema <FILE> "),
        ("serve|--help", "\n      --batch "),
        (
            "serve|--help",
            "\n  plant serve --port 5010 --sessions 1000000 --dir data",
        ),
        (
            "once|--help",
            "\n  plant once --clock 2024.01.02D09:30:00.000000000 --step 1000000000 ",
        ),
    ];
    for (text, part) in rows {
        let found = read(rt.alloc(), text)?;
        assert!(rt;
            found.as_str().starts_with("shown: ") && found.as_str().contains(part),
            "{text}: {found}"
        );
    }
    Ok(())
}
