//! Sources and their symbols, by hand.

use ooo_lexer::{LexError, MOST_BYTES, lex};
use ooo_parser::symbols;
use ooo_syntax::Symbol;
use ooo_value::Value;
use std::alloc::{AllocError, Global};
use std::process::Abort;
use std::test::Fail;

/// A source, and its symbols as [`shown`] writes them.
type Case = (&'static [u8], &'static [u8]);

// Writes each symbol as its text, `@` and its column, `<` and the column of its first pair where that is another, `#`
// and its number where it counts, and a bar.
fn shown(rt: &impl Abort, alloc: Global, source: &[u8]) -> Result<Vec<u8>, LexError> {
    assert!(rt; source.len() <= MOST_BYTES);
    let tokens = lex(alloc, source)?;
    let mut text = Vec::new(alloc);
    for symbol in &symbols(alloc, source, &tokens)? {
        show(alloc, &mut text, symbol)?;
    }
    Ok(text)
}

fn show(alloc: Global, text: &mut Vec<u8>, symbol: &Symbol<'_>) -> Result<(), AllocError> {
    let column = symbol.position.column;
    let first = symbol.first.column;
    let before = symbol.before;
    text.extend_from_slice(symbol.text)?;
    text.extend_from_slice(format!(in alloc; "@{column}")?.as_bytes())?;
    if first != column {
        text.extend_from_slice(format!(in alloc; "<{first}")?.as_bytes())?;
    }
    if symbol.counts {
        text.extend_from_slice(format!(in alloc; "#{before}")?.as_bytes())?;
    }
    text.push(b'|')?;
    Ok(())
}

fn check(rt: &impl Abort, alloc: Global, cases: &[Case]) -> Result<(), LexError> {
    for (source, wanted) in cases {
        let found = shown(rt, alloc, source)?;
        assert!(rt; found.as_slice() == *wanted);
    }
    Ok(())
}

#[test]
fn pairs_belong_to_the_word_after_them(rt: HostRuntime) -> Result<(), Fail> {
    check(
        &rt,
        rt.alloc(),
        &[
            (b"std::cout;", b"cout@6<1|;@10|"),
            (b"std::sc_core::\nx", b"x@1|"),
            (b"sc_core :: std :: wait", b"wait@19<1|"),
            (b"std::static_cast", b"static_cast@6<1|"),
            (b"std::std::;", b"::@9<1|;@11|"),
            (b"std::1", b"::@4<1|1@6|"),
            (b"std::", b"::@4<1|"),
            (b"std::std", b"std@6<1|"),
            (b"std::::x", b"::@4<1|::@6|x@8|"),
            (b"using namespace std;", b"using@1|namespace@7|std@17|;@20|"),
            (b"std x::sc_dt::y", b"std@1|x@5|::@6|sc_dt@8|::@13|y@15|"),
            (b"::x", b"::@1|x@3|"),
            (b"", b""),
        ],
    )?;
    Ok(())
}

#[test]
fn operators_are_numbered(rt: HostRuntime) -> Result<(), Fail> {
    check(
        &rt,
        rt.alloc(),
        &[
            (b"a+b*-c", b"a@1|+@2#0|b@3|*@4#1|-@5#2|c@6|"),
            (
                b"x[i]=(int)y",
                b"x@1|[@2#0|i@3|]@4|=@5|(@6|int@7#1|)@10|y@11|",
            ),
            (
                b"unsigned long long int z",
                b"unsigned@1#0|long@10|long@15|int@20|z@24|",
            ),
            (b"int(bool(1))", b"int@1#0|(@4|bool@5#1|(@9|1@10|)@11|)@12|"),
            (
                b"a?b:c++ -- +=1",
                b"a@1|?@2#0|b@3|:@4|c@5|++@6|--@9|+=@12|1@14|",
            ),
            (b"std::int&&!~x", b"int@6<1#0|&&@9#1|!@11#2|~@12#3|x@13|"),
            (
                b"a<<=b<<c>>=d>>e",
                b"a@1|<<=@2|b@5|<<@6#0|c@8|>>=@9|d@12|>>@13#1|e@15|",
            ),
        ],
    )?;
    Ok(())
}

#[test]
fn numbers_have_their_values(rt: HostRuntime) -> Result<(), Fail> {
    let rows: [(&[u8], Value); 6] = [
        (b"0", Value::Int(0)),
        (b"2147483647", Value::Int(2_147_483_647)),
        (b"2147483648", Value::Long(2_147_483_648)),
        (b"0xffffffff", Value::Uint(4_294_967_295)),
        (
            b"18446744073709551615ull",
            Value::Ulong(18_446_744_073_709_551_615),
        ),
        (b"\"7\"", Value::Int(0)),
    ];
    for (source, value) in rows {
        assert!(&rt; source.len() <= MOST_BYTES);
        let tokens = lex(rt.alloc(), source)?;
        let found = symbols(rt.alloc(), source, &tokens)?;
        assert!(&rt; found.len() == 1 && found[0].value == value);
    }
    Ok(())
}
