use ooo_checked::TypeBreach;
use ooo_lexer::{LexBreach, Position};
use ooo_messages::{
    Breach, TextRefusal, code_reason, elab_reason, explain, explain_ending, explain_stop,
    lexer_reason, parser_reason, segments_reason, stop_reason, types_reason, words_reason,
};
use ooo_syntax::ParseBreach;
use ooo_value::Name;
use ooo_walk::ElabBreach;
use ooo_words::WordsBreach;
use std::alloc::AllocError;
use std::test::Fail;

#[test]
fn says_what_is_wrong(rt: HostRuntime) {
    assert_eq!(rt;
        words_reason(WordsBreach::Twice),
        "the option is given twice"
    );
    assert_eq!(rt;
        stop_reason(),
        "neither --stop nor the text's sc_start says when the run ends"
    );
    assert_eq!(rt;
        code_reason(),
        "the code of its processes is too large, where that of each function counts anew for each call"
    );
    assert_eq!(rt;
        segments_reason(),
        "its processes have more than 1024 segments: one from each start, and one from each wait on"
    );
    assert_eq!(rt; lexer_reason(LexBreach::BadNumber), "this is no number");
    assert_eq!(rt;
        parser_reason(ParseBreach::Syntax),
        "the grammar doesn't go on with this"
    );
    assert_eq!(rt;
        types_reason(TypeBreach::UnknownName),
        "nothing of this name is known here"
    );
    assert_eq!(rt;
        elab_reason(ElabBreach::TwoWriters),
        "two processes write to this"
    );
}

fn is_said(said: Result<Option<String>, AllocError>, wanted: &str) -> Result<bool, AllocError> {
    Ok(said?.is_some_and(|text| text.as_str() == wanted))
}

// A tab stays in both lines, a byte outside ASCII is a '?', and the line ends before its carriage return.
#[test]
fn the_mark_stands_under_the_token(rt: HostRuntime) -> Result<(), Fail> {
    let text = b"SC_MODULE(M) {\n\t/* \xc3\xa4 */ double x;\r\n};\n";
    let refusal = TextRefusal::new(
        Breach::Parser(ParseBreach::NotInProfile),
        Position {
            line: 2,
            column: 11,
        },
    );
    let said = explain(rt.alloc(), text, &refusal)?;
    let wanted =
        "<stdin>:2:11: error: found 'double': C++ or SystemC has this here, but the simulator doesn't take it\n\
        \t/* ?? */ double x;\n\
        \t         ^\n\
        note: there are no fractions: use whole numbers of a smaller unit\n";
    assert_eq!(rt; said.as_str(), wanted);
    Ok(())
}

#[test]
fn a_long_line_is_cut_around_the_mark(rt: HostRuntime) -> Result<(), Fail> {
    let text = b"0123456789012345678901234567890123456789012345678901234567890123456789@\
        0123456789012345678901234567890123456789";
    let refusal = TextRefusal::new(
        Breach::Lexer(LexBreach::BadByte),
        Position {
            line: 1,
            column: 71,
        },
    );
    let said = explain(rt.alloc(), text, &refusal)?;
    let wanted = "<stdin>:1:71: error: this byte begins no token and no escape\n\
        ...0123456789012345678901234567890123456789@012345678901234567890123456789012345678...\n\
        \x20                                          ^\n\
        note: take it away: it may stand in comments and texts alone\n";
    assert_eq!(rt; said.as_str(), wanted);
    Ok(())
}

// The names that elaboration is about stand before and behind what is wrong.
#[test]
fn names_are_told_around_the_reason(rt: HostRuntime) -> Result<(), Fail> {
    let alloc = rt.alloc();
    let mut names = Vec::new(alloc);
    for name in ["t.s", "t.a.f", "t.b.f"] {
        names.push(Name::new(alloc, name)?)?;
    }
    let refusal = TextRefusal {
        breach: Breach::Elaborate(ElabBreach::TwoWriters),
        at: Position { line: 1, column: 5 },
        names: &names,
    };
    let said = explain(alloc, b"int x;\n", &refusal)?;
    let wanted = "<stdin>:1:5: error: t.s: two processes write to this: t.a.f t.b.f\n";
    assert!(rt; said.as_str().starts_with(wanted));
    Ok(())
}

#[test]
fn an_ending_is_told_at_its_statement(rt: HostRuntime) -> Result<(), Fail> {
    let text = b"a\n  x = 1 / y;\n";
    let said = explain_ending(rt.alloc(), text, "fault DivideByZero 10 ns 0 m.a 2");
    let wanted = "<stdin>:2:3: error: DivideByZero in process m.a at 10 ns, delta cycle 0: \
        a division or a remainder by zero\n\
        \x20 x = 1 / y;\n\
        \x20 ^\n\
        note: test the divisor first: 'if (d != 0) { .. }'\n";
    assert!(rt; is_said(said, wanted)?);
    assert!(rt; explain_ending(rt.alloc(), text, "idle 10 ns 0")?.is_none());
    Ok(())
}

#[test]
fn a_missing_stop_time_is_told_at_its_call(rt: HostRuntime) -> Result<(), Fail> {
    let said = explain_stop(rt.alloc(), b"  sc_start();\n");
    let wanted =
        "<stdin>:1:3: error: neither --stop nor the text's sc_start says when the run ends\n\
        \x20 sc_start();\n\
        \x20 ^\n\
        note: write 'sc_start(100, SC_NS);', or call with '--stop 100ns'\n";
    assert!(rt; is_said(said, wanted)?);
    assert!(rt; explain_stop(rt.alloc(), b"int x;")?.is_none());
    Ok(())
}
