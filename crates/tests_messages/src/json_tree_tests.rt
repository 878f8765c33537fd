use json_tree::*;

#[test]
fn texts_that_are_json(rt: HostRuntime) {
    for text in [
        "{}",
        " [1, 2.5, -3] ",
        "null",
        "{\"a\":{\"b\":[true,\"x\"]}}",
    ] {
        assert!(rt; read(rt.alloc(), text.as_bytes()).is_ok(), "{text}");
    }
}

#[test]
fn texts_that_are_not(rt: HostRuntime) {
    for text in ["", "{", "{}x", "[1,]", "01", "1e999", "\u{feff}{}"] {
        let fault = read(rt.alloc(), text.as_bytes()).err();
        assert_eq!(rt; fault, Some(TextFault::NotJson), "{text}");
    }
    assert_eq!(rt;
        read(rt.alloc(), b"\"\xff\"").err(),
        Some(TextFault::NotJson)
    );
}

// `serde_json` reads 127 levels of arrays and objects, and no more.
#[test]
fn nesting(rt: HostRuntime) {
    let mut brackets = [b'['; 256];
    for place in 128..256 {
        brackets[place] = b']';
    }
    assert!(rt; read(rt.alloc(), &brackets[1..255]).is_ok());
    assert_eq!(rt; read(rt.alloc(), &brackets).err(), Some(TextFault::NotJson));
}

// RFC 8259 has one kind of number; only those that are written as integers and fit are whole.
#[test]
fn numbers(rt: HostRuntime) {
    let cases = [
        ("0", Some(0), Some(0)),
        ("4294967295", Some(4294967295), Some(4294967295)),
        ("4294967296", Some(4294967296), None),
        ("18446744073709551615", Some(18446744073709551615), None),
        ("18446744073709551616", None, None),
        ("-0", None, None),
        ("-1", None, None),
        ("1.0", None, None),
        ("1e3", None, None),
        ("\"1\"", None, None),
        ("[1]", None, None),
    ];
    for (text, number, short) in cases {
        let found = read(rt.alloc(), text.as_bytes()).expect(&rt, "JSON");
        assert_eq!(rt; whole(&found), number, "{text}");
        assert_eq!(rt; word(&found), short, "{text}");
    }
}

#[test]
fn fields(rt: HostRuntime) {
    let cases = [
        ("{\"a\":7}", Ok(7), Ok(Some(7))),
        ("{\"a\":null}", Err(FieldFault::WrongType), Ok(None)),
        ("{\"b\":7}", Err(FieldFault::Missing), Ok(None)),
        (
            "{\"a\":\"7\"}",
            Err(FieldFault::WrongType),
            Err(FieldFault::WrongType),
        ),
        ("{\"a\":1,\"a\":7}", Ok(7), Ok(Some(7))),
        ("{\"a\":null,\"\\u0061\":7}", Ok(7), Ok(Some(7))),
        ("{\"a\":7,\"a\":null}", Err(FieldFault::WrongType), Ok(None)),
    ];
    for (text, must, may) in cases {
        let found = read(rt.alloc(), text.as_bytes()).expect(&rt, "JSON");
        assert_eq!(rt; required_whole(&found, "a"), must, "{text}");
        assert_eq!(rt; optional_whole(&found, "a"), may, "{text}");
    }
}

#[test]
fn lists(rt: HostRuntime) {
    let text = b"{\"a\":[1,2],\"b\":[\"x\",\"\"]}";
    let found = read(rt.alloc(), text).expect(&rt, "JSON");
    assert!(rt; required_wholes(rt.alloc(), &found, "a").is_ok());
    assert!(rt; optional_wholes(rt.alloc(), &found, "a").is_ok());
    assert!(rt; required_text_list(&found, "b").is_ok());
    assert!(rt; optional_text_list(&found, "b").is_ok());
    assert_eq!(rt;
        required_text_list(&found, "a").err(),
        Some(FieldFault::WrongType)
    );
}
