// The words of a command, where files are looked for, and a text's byte order mark.
use crate::shown::shown;
use desk::asked::Form;
use desk::program::text_for;
use desk::settle::settle_text;
use std::test::*;

// The first line of a text.
fn first_line(text: &str) -> &str {
    text.split_once('\n').map_or(text, |(first, _)| first)
}

#[test]
fn options_come_before_or_after(rt: HostRuntime) -> Result<(), Fail> {
    let missing = "none.batch: No such file or directory (os error 2)";
    let second = "one batch is settled, and more.batch is a second";
    let cases = [
        (["--csv", "none.batch"], missing),
        (["none.batch", "--csv"], missing),
        (["--cvs", "none.batch"], "there is no option --cvs"),
        (["none.batch", "more.batch"], second),
    ];
    for (words, message) in cases {
        let settled = text_for(&rt, &words);
        assert_eq!(rt; shown(&settled).map_err(first_line), Err(message));
    }
    Ok(())
}

#[test]
fn files_stand_beside_the_batch(rt: HostRuntime) -> Result<(), Fail> {
    let text = "label a\nmeter m hourly 1 none.csv\n";
    let settled = settle_text(&rt, Some("in/a.batch"), text, Form::Rows);
    assert_eq!(rt;
        shown(&settled),
        Err("in/a.batch, line 2: in/none.csv: No such file or directory (os error 2)")
    );
    Ok(())
}

#[test]
fn a_byte_order_mark_is_passed_over(rt: HostRuntime) -> Result<(), Fail> {
    let text = "\u{feff}label a, \"b\"\r\nopen 2019\r\nclose\r\n";
    let settled = settle_text(&rt, Some("a.batch"), text, Form::Rows);
    assert_eq!(rt;
        shown(&settled),
        Ok("call,2,open,answer,10\ncall,3,close,answer,0,0\nbatch,\"a, \"\"b\"\"\",0,0,0,0\n")
    );
    Ok(())
}
