//! Texts and their tokens, and how expressions and values are written.

use crate::{Token, lex, name_in, print_expr, print_value};
use sql_base::{Arm, BinOp, Expr, Func, Name, NoMemory, SqlText, Ty, Value};
use sqlite_items::{Boxed, Items};
use std::alloc::Global;
use std::test::Fail;

// Each text, and its tokens with their places.
const TEXTS: [(&str, &str); 24] = [
    ("", "0:."),
    (" \t\r", "3:."),
    (
        "SELECT * FROM users;",
        "0:SELECT 7:Star 9:FROM 14:users 19:Semicolon 20:.",
    ),
    ("select seLECT selects", "0:SELECT 7:SELECT 14:selects 21:."),
    ("1FROM", "0:1 1:FROM 5:."),
    ("1a_2 _b", "0:1 1:a_2 5:_b 7:."),
    (
        "Users \"users\" \"to\"",
        "0:users 6:\"users\" 14:\"to\" 18:.",
    ),
    ("\"Users\"", "0:! 1:users 6:! 7:."),
    ("\"1a\" \"\" \"a", "0:! 1:1 2:a 3:! 5:! 6:! 8:! 9:a 10:."),
    ("a<=b", "0:a 1:Le 3:b 4:."),
    (
        "< <= <> << > >= >< = == !=",
        "0:Lt 2:Le 5:Ne 8:Lt 9:Lt 11:Gt 13:Ge 16:Gt 17:Lt 19:Eq 21:Eq 22:Eq 24:Ne 26:.",
    ),
    ("a||b|c", "0:a 1:Concat 3:b 4:! 5:c 6:."),
    ("a::text a:b", "0:a 1:Cast 3:text 8:a 9:! 10:b 11:."),
    ("! =", "0:! 2:Eq 3:."),
    (
        "(1,2)%3/4+5",
        "0:Open 1:1 2:Comma 3:2 4:Close 5:Percent 6:3 7:Slash 8:4 9:Plus 10:5 11:.",
    ),
    (
        "a-5 - 5 --5 -",
        "0:a 1:-> 2:5 4:- 6:5 8:- 9:-> 10:5 12:- 13:.",
    ),
    ("007", "0:7 3:."),
    ("18446744073709551615", "0:18446744073709551615 20:."),
    ("18446744073709551616 9", "0:18446744073709551615 21:9 22:."),
    ("'a' 'it''s' '' ''''", "0:'a' 4:'it's' 12:'' 15:''' 19:."),
    ("'a''", "0:! 1:a 2:'' 4:."),
    ("'é'é", "0:'é' 4:! 5:! 6:."),
    ("a\nb", "0:a 1:! 2:b 3:."),
    ("'a\nb'?", "0:'a\nb' 5:! 6:."),
];

fn shown(alloc: Global, token: &Token) -> Result<String, Fail> {
    let text = match token {
        Token::Name(name) => String::from_str(alloc, str::from_utf8(name.as_slice())?)?,
        Token::Quoted(name) => format!(in alloc; "\"{}\"", str::from_utf8(name.as_slice())?)?,
        Token::Int(n) => n.to_string(alloc)?,
        Token::Text(text) => format!(in alloc; "'{}'", text.as_str())?,
        Token::Key(key) => String::from_str(alloc, key.spelling())?,
        Token::Sign(sign) => format!(in alloc; "{sign:?}")?,
        Token::Minus(true) => String::from_str(alloc, "->")?,
        Token::Minus(false) => String::from_str(alloc, "-")?,
        Token::Bad => String::from_str(alloc, "!")?,
        Token::End => String::from_str(alloc, ".")?,
    };
    Ok(text)
}

fn all_shown(alloc: Global, text: &[u8]) -> Result<String, Fail> {
    let tokens = lex(alloc, text)?;
    let mut out = String::new(alloc);
    for placed in tokens.as_slice() {
        if !out.is_empty() {
            out.push_str(" ")?;
        }
        let token = shown(alloc, &placed.token)?;
        let at = placed.at;
        out.push_str(format!(in alloc; "{at}:{token}")?.as_str())?;
    }
    Ok(out)
}

#[test]
fn texts_have_these_tokens(rt: HostRuntime) -> Result<(), Fail> {
    for (text, tokens) in TEXTS {
        let found = all_shown(rt.alloc(), text.as_bytes())?;
        assert_eq!(rt; found.as_str(), tokens, "{text}");
    }
    assert_eq!(rt; all_shown(rt.alloc(), b"a\0b")?.as_str(), "0:a 1:! 2:b 3:.");
    assert_eq!(rt;
        all_shown(rt.alloc(), b"'\0' 1")?.as_str(),
        "0:! 1:! 2:! 4:1 5:."
    );
    assert_eq!(rt;
        all_shown(rt.alloc(), b"'\xff'")?.as_str(),
        "0:! 1:! 2:! 3:."
    );
    Ok(())
}

fn begins_badly(alloc: Global, text: &[u8]) -> Result<bool, NoMemory> {
    let tokens = lex(alloc, text)?;
    Ok(match tokens.as_slice() {
        [first, ..] => matches!(first.token, Token::Bad),
        [] => false,
    })
}

fn repeated(alloc: Global, front: &[u8], count: usize, behind: &[u8]) -> Result<Vec<u8>, NoMemory> {
    let mut text = Vec::from_slice(alloc, front)?;
    for _ in 0..count {
        text.push(b'a')?;
    }
    text.extend_from_slice(behind)?;
    Ok(text)
}

#[test]
fn lengths_have_limits(rt: HostRuntime) -> Result<(), Fail> {
    let alloc = rt.alloc();
    let name = repeated(alloc, b"_", 62, b"")?;
    assert!(rt; !begins_badly(alloc, name.as_slice())?);
    let name = repeated(alloc, b"_", 63, b"")?;
    assert!(rt; begins_badly(alloc, name.as_slice())?);
    let text = repeated(alloc, b"'", 4096, b"'")?;
    assert!(rt; !begins_badly(alloc, text.as_slice())?);
    let text = repeated(alloc, b"'", 4097, b"'")?;
    assert!(rt; begins_badly(alloc, text.as_slice())?);
    Ok(())
}

fn col(alloc: Global, name: &str) -> Result<Expr, NoMemory> {
    Ok(Expr::Col(Name::from_slice(alloc, name.as_bytes())?))
}

fn int(n: i64) -> Expr {
    Expr::Lit(Value::Int(n))
}

fn binary(alloc: Global, op: BinOp, a: Expr, b: Expr) -> Result<Expr, NoMemory> {
    Ok(Expr::Bin(op, Boxed::new(alloc, a)?, Boxed::new(alloc, b)?))
}

fn is_printed(alloc: Global, e: &Expr, text: &str) -> Result<bool, NoMemory> {
    Ok(print_expr(alloc, e)?.as_slice() == text.as_bytes())
}

// `CAST(age AS bigint) / 10 * 10`
fn tenths(alloc: Global) -> Result<Expr, NoMemory> {
    let age = Expr::Cast(Boxed::new(alloc, col(alloc, "age")?)?, Ty::Bigint);
    let tenth = binary(alloc, BinOp::Div, age, int(10))?;
    binary(alloc, BinOp::Mul, tenth, int(10))
}

// `a = b IS NULL`
fn equal_or_not(alloc: Global) -> Result<Expr, NoMemory> {
    let same = binary(alloc, BinOp::Eq, col(alloc, "a")?, col(alloc, "b")?)?;
    Ok(Expr::IsNull(Boxed::new(alloc, same)?))
}

// `- a + -3`
fn minus_three(alloc: Global) -> Result<Expr, NoMemory> {
    let minus = Expr::Neg(Boxed::new(alloc, col(alloc, "a")?)?);
    binary(alloc, BinOp::Add, minus, int(-3))
}

#[test]
fn expressions_are_written_so(rt: HostRuntime) -> Result<(), Fail> {
    let alloc = rt.alloc();
    let written = is_printed(alloc, &tenths(alloc)?, "((CAST(age AS bigint) / 10) * 10)")?;
    assert!(rt; written);
    let written = is_printed(alloc, &equal_or_not(alloc)?, "((a = b) IS NULL)")?;
    assert!(rt; written);
    let written = is_printed(alloc, &minus_three(alloc)?, "((- a) + -3)")?;
    assert!(rt; written);
    Ok(())
}

fn text(alloc: Global, text: &[u8]) -> Result<Value, NoMemory> {
    match SqlText::read(alloc, text)? {
        Some(text) => Ok(Value::Text(text)),
        None => Ok(Value::Null),
    }
}

#[test]
fn lists_are_written_so(rt: HostRuntime) -> Result<(), Fail> {
    let alloc = rt.alloc();
    let mut args = Items::new(alloc);
    args.push(col(alloc, "to")?)?;
    args.push(Expr::Lit(Value::Null))?;
    args.push(Expr::Lit(Value::Bool(true)))?;
    let call = Expr::Call(Func::Coalesce, args);
    let mut arms = Items::new(alloc);
    let when = Expr::Not(Boxed::new(alloc, col(alloc, "a")?)?);
    let gives = Expr::Lit(text(alloc, b"it's")?);
    arms.push(Arm { when, gives })?;
    let when = Expr::Lit(Value::Bool(false));
    let gives = Expr::Call(Func::Upper, Items::new(alloc));
    arms.push(Arm { when, gives })?;
    let e = Expr::Case(arms, Boxed::new(alloc, call)?);
    let written =
        "CASE WHEN (NOT a) THEN 'it''s' WHEN FALSE THEN upper() ELSE coalesce(\"to\", NULL, TRUE) END";
    assert!(rt; is_printed(alloc, &e, written)?);
    Ok(())
}

#[test]
fn values_are_written_so(rt: HostRuntime) -> Result<(), Fail> {
    let alloc = rt.alloc();
    let least = Value::Int(i64::MIN);
    let escapes = text(alloc, b"a\\b|c\nd\re'")?;
    assert!(rt; print_value(alloc, &Value::Null)?.as_slice() == b"\\N".as_slice());
    assert!(rt; print_value(alloc, &least)?.as_slice() == b"-9223372036854775808".as_slice());
    assert!(rt; print_value(alloc, &escapes)?.as_slice() == b"a\\\\b\\|c\\nd\\re'".as_slice());
    assert!(rt; print_value(alloc, &Value::Bool(true))?.as_slice() == b"true".as_slice());
    assert!(rt; print_value(alloc, &Value::Bool(false))?.as_slice() == b"false".as_slice());
    Ok(())
}

// Each text, and the name that it is an identifier of, or nothing.
const IDENTIFIERS: [(&str, &str); 17] = [
    ("users", "users"),
    ("Users_1", "users_1"),
    ("_", "_"),
    ("\"to\"", "to"),
    ("\"_1\"", "_1"),
    (
        "a23456789012345678901234567890123456789012345678901234567890123",
        "a23456789012345678901234567890123456789012345678901234567890123",
    ),
    (
        "a234567890123456789012345678901234567890123456789012345678901234",
        "",
    ),
    ("to", ""),
    ("Where", ""),
    ("\"Users\"", ""),
    ("1a", ""),
    ("\"1a\"", ""),
    ("", ""),
    ("\"", ""),
    ("\"\"", ""),
    (" a", ""),
    ("\"a", ""),
];

#[test]
fn identifiers_are_read_so(rt: HostRuntime) -> Result<(), Fail> {
    for (text, wanted) in IDENTIFIERS {
        let found = match name_in(rt.alloc(), text.as_bytes())? {
            Some(name) => String::from_str(rt.alloc(), str::from_utf8(name.as_slice())?)?,
            None => String::new(rt.alloc()),
        };
        assert_eq!(rt; found.as_str(), wanted, "{text}");
    }
    Ok(())
}
