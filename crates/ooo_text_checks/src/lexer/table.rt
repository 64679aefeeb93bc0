//! Sources with their tokens or their breach.

use crate::lexer::Case;
use ooo_lexer::NumberKind;

// Spaces, words and what begins nothing.
pub static SPACES: [Case; 13] = [
    (b"", b""),
    (b" \t\r\n ", b""),
    (b"a_1 _B2c(Z9)", b"w:a_1|w:_B2c|s:(|w:Z9|s:)|"),
    (b"@", b"BadByte 1:1"),
    (b"a\n b @", b"BadByte 2:4"),
    (b"a\x0bb", b"BadByte 1:2"),
    (b"\0", b"BadByte 1:1"),
    (b"\xc3\xa9", b"BadByte 1:1"),
    (b"'", b"BadByte 1:1"),
    (b"\\", b"BadByte 1:1"),
    (b"`$", b"BadByte 1:1"),
    (b"@ 08", b"BadByte 1:1"),
    (b"08 @", b"BadNumber 1:1"),
];

// Signs, and the longest of them.
pub static SIGNS: [Case; 17] = [
    (
        b"<<= >>= << >> <= >= == !=",
        b"s:<<=|s:>>=|s:<<|s:>>|s:<=|s:>=|s:==|s:!=|",
    ),
    (
        b"&& || ++ -- += -= *= /=",
        b"s:&&|s:|||s:++|s:--|s:+=|s:-=|s:*=|s:/=|",
    ),
    (b"%= &= |= ^= ::", b"s:%=|s:&=|s:|=|s:^=|s:::|"),
    (
        b"+ - * / % < > = !",
        b"s:+|s:-|s:*|s:/|s:%|s:<|s:>|s:=|s:!|",
    ),
    (
        b"& | ^ ~ ? : ; , .",
        b"s:&|s:||s:^|s:~|s:?|s::|s:;|s:,|s:.|",
    ),
    (b"(){}[]", b"s:(|s:)|s:{|s:}|s:[|s:]|"),
    (b">>>=", b"s:>>|s:>=|"),
    (b">>>", b"s:>>|s:>|"),
    (b"<<<=", b"s:<<|s:<=|"),
    (b"===", b"s:==|s:=|"),
    (b":::", b"s:::|s::|"),
    (b"+++", b"s:++|s:+|"),
    (b"->", b"s:-|s:>|"),
    (b"~=", b"s:~|s:=|"),
    (b"%%", b"s:%|s:%|"),
    (b"&&=", b"s:&&|s:=|"),
    (b"^^", b"s:^|s:^|"),
];

// Numbers, at the bounds of their kinds, and none.
pub static NUMBERS: [Case; 30] = [
    (b"0 10 7 a1(1)", b"n:0|n:10|n:7|w:a1|s:(|n:1|s:)|"),
    (b"2147483647 2147483648", b"n:2147483647|n:2147483648|"),
    (b"9223372036854775807", b"n:9223372036854775807|"),
    (b"9223372036854775808", b"NumberTooWide 1:1"),
    (b"9223372036854775807ll", b"n:9223372036854775807ll|"),
    (b"9223372036854775808LL", b"NumberTooWide 1:1"),
    (b"4294967295u 4294967296U", b"n:4294967295u|n:4294967296U|"),
    (b"18446744073709551615u", b"n:18446744073709551615u|"),
    (b"18446744073709551616u", b"NumberTooWide 1:1"),
    (b"18446744073709551615ull", b"n:18446744073709551615ull|"),
    (b"18446744073709551616ULL", b"NumberTooWide 1:1"),
    (b"18446744073709551616", b"NumberTooWide 1:1"),
    (b"0xffffffffffffffff", b"n:0xffffffffffffffff|"),
    (b"0x10000000000000000", b"NumberTooWide 1:1"),
    (b"0x00000000000000000001", b"n:0x00000000000000000001|"),
    (
        b"0Xau 0xALL 0u 0ll 0ULL",
        b"n:0Xau|n:0xALL|n:0u|n:0ll|n:0ULL|",
    ),
    (b"00", b"BadNumber 1:1"),
    (b" 08", b"BadNumber 1:2"),
    (b"0x", b"BadNumber 1:1"),
    (b"0xg", b"BadNumber 1:1"),
    (b"0xu", b"BadNumber 1:1"),
    (b"1lu", b"BadNumber 1:1"),
    (b"1uu", b"BadNumber 1:1"),
    (b"1l", b"BadNumber 1:1"),
    (b"1lL", b"BadNumber 1:1"),
    (b"1Ull", b"BadNumber 1:1"),
    (b"1a", b"BadNumber 1:1"),
    (b"1_000", b"BadNumber 1:1"),
    (b"00x1", b"BadNumber 1:1"),
    (b"1.5", b"n:1|s:.|n:5|"),
];

// Texts.
pub static TEXTS: [Case; 16] = [
    (b"\"\"", b"t:\"\"|"),
    (b"\"a b\"\"c\"", b"t:\"a b\"|t:\"c\"|"),
    (b"\"\\n\\t\\\\\\\"\"", b"t:\"\\n\\t\\\\\\\"\"|"),
    (b"\"\xc3\xa9\xff\0\x0b\"", b"t:\"\xc3\xa9\xff\0\x0b\"|"),
    (b"\"a # // /* b\"", b"t:\"a # // /* b\"|"),
    (b"\"a", b"TextNotClosed 1:1"),
    (b"x \"a\n\"", b"TextNotClosed 1:3"),
    (b"\"a\r\"", b"TextNotClosed 1:1"),
    (b"\"\\\"", b"TextNotClosed 1:1"),
    (b"\"\\", b"TextNotClosed 1:1"),
    (b"\"\\\n\"", b"TextNotClosed 1:1"),
    (b"\"a\\q\"", b"BadByte 1:3"),
    (b"\"\\\\\\x\\y\"", b"BadByte 1:4"),
    (b"\"\\q", b"TextNotClosed 1:1"),
    (b"\"\\q\\\"", b"TextNotClosed 1:1"),
    (b"\n\"\\0\"", b"BadByte 2:2"),
];

// Comments.
pub static COMMENTS: [Case; 15] = [
    (b"// a\nb", b"w:b|"),
    (b"//", b""),
    (b"a//\"\\\nb", b"w:a|w:b|"),
    (b"a/**/b", b"w:a|w:b|"),
    (b"/***/", b""),
    (b"/* / * // */x", b"w:x|"),
    (b"/* a */ */", b"s:*|s:/|"),
    (b"a */ b", b"w:a|s:*|s:/|w:b|"),
    (b"/*/", b"CommentNotClosed 1:1"),
    (b"x\n /*", b"CommentNotClosed 2:2"),
    (b"/*/*/", b""),
    (b"/* # \0\xff\n\n*/ @", b"BadByte 3:4"),
    (b"// # x\n@", b"BadByte 2:1"),
    (b"/ /", b"s:/|s:/|"),
    (b"/=/", b"s:/=|s:/|"),
];

// Directives.
pub static DIRECTIVES: [Case; 20] = [
    (b"#include <systemc>", b""),
    (b"#include<iostream>\nx", b"w:x|"),
    (b"#\t include \r\t\"systemc.h\" \t\r\nx", b"w:x|"),
    (b"# include \"systemc.h\"", b""),
    (b"#include \"systemc\"", b""),
    (b"#include <systemc.h>", b""),
    (b"a ; #include <systemc>\nb", b"w:a|s:;|w:b|"),
    (b"#include <systemc> // x", b""),
    (b"#include <systemc>//x\ny", b"w:y|"),
    (b"#include <systemc> x", b"Directive 1:1"),
    (b"#include <systemc>;", b"Directive 1:1"),
    (b"#include <systemc> /* x */", b"Directive 1:1"),
    (b"#include \"iostream\"", b"Directive 1:1"),
    (b"#include <systemc >", b"Directive 1:1"),
    (b" #include\n<systemc>", b"Directive 1:2"),
    (b"#includes <systemc>", b"Directive 1:1"),
    (b"#include", b"Directive 1:1"),
    (b"#define A", b"Directive 1:1"),
    (b"#", b"Directive 1:1"),
    (b"# /* */ include <systemc>", b"Directive 1:1"),
];

// Numbers with their kinds and values.
pub static KINDS: [(&[u8], NumberKind, u64); 24] = [
    (b"0", NumberKind::Int, 0),
    (b"2147483647", NumberKind::Int, 2_147_483_647),
    (b"2147483648", NumberKind::Long, 2_147_483_648),
    (
        b"9223372036854775807",
        NumberKind::Long,
        9_223_372_036_854_775_807,
    ),
    (b"0u", NumberKind::Uint, 0),
    (b"4294967295u", NumberKind::Uint, 4_294_967_295),
    (b"4294967296U", NumberKind::Ulong, 4_294_967_296),
    (
        b"18446744073709551615u",
        NumberKind::Ulong,
        18_446_744_073_709_551_615,
    ),
    (b"7ll", NumberKind::Long, 7),
    (
        b"9223372036854775807LL",
        NumberKind::Long,
        9_223_372_036_854_775_807,
    ),
    (b"1ull", NumberKind::Ulong, 1),
    (
        b"18446744073709551615ULL",
        NumberKind::Ulong,
        18_446_744_073_709_551_615,
    ),
    (b"0x7fffffff", NumberKind::Int, 2_147_483_647),
    (b"0x80000000", NumberKind::Uint, 2_147_483_648),
    (b"0XFFFFFFFF", NumberKind::Uint, 4_294_967_295),
    (b"0x100000000", NumberKind::Long, 4_294_967_296),
    (
        b"0x7fffffffffffffff",
        NumberKind::Long,
        9_223_372_036_854_775_807,
    ),
    (
        b"0x8000000000000000",
        NumberKind::Ulong,
        9_223_372_036_854_775_808,
    ),
    (
        b"0xffffffffffffffff",
        NumberKind::Ulong,
        18_446_744_073_709_551_615,
    ),
    (b"0xALL", NumberKind::Long, 10),
    (
        b"0x8000000000000000ll",
        NumberKind::Ulong,
        9_223_372_036_854_775_808,
    ),
    (b"0xFFFFFFFFu", NumberKind::Uint, 4_294_967_295),
    (b"0x100000000u", NumberKind::Ulong, 4_294_967_296),
    (b"0xaull", NumberKind::Ulong, 10),
];

// Bytes that are no number, or too wide a one.
pub static NO_NUMBERS: [&[u8]; 7] = [
    b"",
    b"08",
    b"0x",
    b"1lu",
    b"x1",
    b"9223372036854775808",
    b"18446744073709551616",
];
