//! What errors tell.

use kk_base::{LexError, Name, NameError, NoMemory};

static LEX_ERRORS: [(LexError, &str); 5] = [
    (LexError::BadByte { at: 7 }, "byte 7 begins no token"),
    (
        LexError::OpenComment { at: 0 },
        "the comment at byte 0 is not closed",
    ),
    (
        LexError::OpenString { at: 1 },
        "the string at byte 1 is not closed",
    ),
    (
        LexError::NumberTooLarge { at: 3 },
        "the number at byte 3 does not fit in 32 bits",
    ),
    (
        LexError::StringTooLong { at: 2 },
        "the string at byte 2 has more than 255 bytes",
    ),
];

#[test]
fn errors_are_told(rt: HostRuntime) {
    for (error, expected) in LEX_ERRORS {
        let told = format!(in rt.alloc(); "{error}").expect(&rt, "memory");
        assert_eq!(rt; told.as_str(), expected);
    }
    let name = Name::new(String::from_str(rt.alloc(), "xs'").expect(&rt, "memory"));
    let twice = NameError::Twice { name, at: 9 };
    let told = format!(in rt.alloc(); "{twice}, {NoMemory}").expect(&rt, "memory");
    assert_eq!(rt;
        told.as_str(),
        "`xs'` at byte 9 is declared twice, no memory"
    );
}
