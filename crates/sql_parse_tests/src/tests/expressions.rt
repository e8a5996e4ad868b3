//! Expressions as texts, both ways, and where texts have their first fault.

use super::{MOST, told};
use sql_base::Expr;
use sql_parse::{ParseFault, parse_expr};
use sql_text::print_expr;
use std::alloc::Global;
use std::test::Fail;

// Each text, and the canonical text of its tree.
const READ: &str = "CAST(age AS bigint) / 10 * 10 => ((CAST(age AS bigint) / 10) * 10)
a = b IS NULL => ((a = b) IS NULL)
- a + -3 => ((- a) + -3)
a OR b AND c => (a OR (b AND c))
a AND b OR c => ((a AND b) OR c)
a OR b OR c => ((a OR b) OR c)
a AND b AND c => ((a AND b) AND c)
NOT a AND b => ((NOT a) AND b)
NOT a OR b => ((NOT a) OR b)
a AND NOT b => (a AND (NOT b))
a OR NOT b AND c => (a OR ((NOT b) AND c))
NOT NOT a => (NOT (NOT a))
NOT a IS NULL => (NOT (a IS NULL))
NOT a = b => (NOT (a = b))
a IS NULL IS NULL => ((a IS NULL) IS NULL)
a IS NOT NULL => (NOT (a IS NULL))
a IS NOT NULL AND b => ((NOT (a IS NULL)) AND b)
a IS NOT NULL IS NULL => ((NOT (a IS NULL)) IS NULL)
a || b IS NULL => ((a || b) IS NULL)
a < b => (a < b)
a <= b => (a <= b)
a > b => (a > b)
a >= b => (a >= b)
a <> b => (a <> b)
a != b => (a <> b)
a || b || c => ((a || b) || c)
a || b = c => ((a || b) = c)
a = b || c => (a = (b || c))
a + b || c => ((a + b) || c)
a || b + c => (a || (b + c))
a - b - c => ((a - b) - c)
a - b + c => ((a - b) + c)
a + b * c => (a + (b * c))
a * b + c => ((a * b) + c)
a / b * c => ((a / b) * c)
a % b / c => ((a % b) / c)
a * b % c - d => (((a * b) % c) - d)
- a * b => ((- a) * b)
a * - b => (a * (- b))
- - a => (- (- a))
-a => (- a)
- a::text => (- CAST(a AS text))
a::bigint::text => CAST(CAST(a AS bigint) AS text)
-5 => -5
- 5 => (- 5)
-5::text => CAST(-5 AS text)
- 5::text => (- CAST(5 AS text))
- -5 => (- -5)
--5 => (- -5)
a -5 => (a - 5)
a - -5 => (a - -5)
a--5 => (a - -5)
a + b::text => (a + CAST(b AS text))
(a + b)::text => CAST((a + b) AS text)
(a) => a
((a + b)) * c => ((a + b) * c)
a * (b + c) => (a * (b + c))
a - (b - c) => (a - (b - c))
(a < b) < c => ((a < b) < c)
(a IS NULL) = b => ((a IS NULL) = b)
NOT (a AND b) => (NOT (a AND b))
(NOT a) IS NULL => ((NOT a) IS NULL)
a = (NOT b) => (a = (NOT b))
NULL => NULL
true => TRUE
False => FALSE
'it''s' => 'it''s'
'' => ''
'''' => ''''
007 => 7
9223372036854775807 => 9223372036854775807
-9223372036854775808 => -9223372036854775808
A => a
\"a\" => a
\"select\" => \"select\"
\"upper\" => upper
coalesce => coalesce
upper + lower => (upper + lower)
upper IS NULL => (upper IS NULL)
Coalesce(A) => coalesce(a)
coalesce(a, b + 1, NULL) => coalesce(a, (b + 1), NULL)
nullif(a, b) => nullif(a, b)
upper (x) => upper(x)
length(trim(lower(a))) => length(trim(lower(a)))
upper(a) || b => (upper(a) || b)
CAST(x AS INT8) => CAST(x AS bigint)
CAST(x OR y AS bool) => CAST((x OR y) AS boolean)
x::boolean => CAST(x AS boolean)
CAST(a AS text)::bigint => CAST(CAST(a AS text) AS bigint)
CASE WHEN a THEN b END => CASE WHEN a THEN b ELSE NULL END
CASE WHEN a THEN b WHEN c THEN d ELSE e END => CASE WHEN a THEN b WHEN c THEN d ELSE e END
CASE WHEN a OR b THEN 1 + 2 END => CASE WHEN (a OR b) THEN (1 + 2) ELSE NULL END
CASE WHEN CASE WHEN a THEN b END THEN c END => CASE WHEN CASE WHEN a THEN b ELSE NULL END THEN c ELSE NULL END
CASE WHEN a THEN b END + 1 => (CASE WHEN a THEN b ELSE NULL END + 1)
CASE WHEN a THEN b END::text => CAST(CASE WHEN a THEN b ELSE NULL END AS text)
1+2*3 => (1 + (2 * 3))
";

// Each text with its first fault and the byte where that stands.
const REFUSED: &str = " => syntax 0
   => syntax 2
a b => syntax 2
a +  => syntax 4
(a => syntax 2
(a  => syntax 3
a) => syntax 1
a ? b => syntax 2
a; => syntax 1
'a => syntax 0
a || 'b => syntax 5
a, b => syntax 1
a AND => syntax 5
a IS b => syntax 5
a IS NOT b => syntax 9
1FROM => syntax 1
a:b => syntax 1
a = = b => syntax 4
* a => syntax 0
a AS b => syntax 2
a END => syntax 2
a.b => syntax 1
1.5 => syntax 1
select => syntax 0
a < b < c => syntax 6
a = b = c => syntax 6
a < b = c => syntax 6
a = NOT b => syntax 4
a + NOT b => syntax 4
- NOT a => syntax 2
a IS NULL + 1 => syntax 10
a IS NULL = b => syntax 10
a < b IS NULL < c => syntax 14
\"upper\"(x) => syntax 7
foo(a) => syntax 3
x::int => syntax 3
x:: => syntax 3
x::\"text\" => syntax 3
CAST(x AS \"text\") => syntax 10
CAST x => syntax 5
CAST(x AS text => syntax 14
CAST(x) => syntax 6
nullif(a) => syntax 8
nullif(a, b, c) => syntax 11
upper(a, b) => syntax 7
upper() => syntax 6
coalesce() => syntax 9
coalesce(a,) => syntax 11
CASE ELSE a END => syntax 5
CASE a WHEN => syntax 5
CASE WHEN a END => syntax 12
CASE WHEN a THEN b ELSE c ELSE d END => syntax 26
CASE WHEN a THEN b => syntax 18
(a, b) => syntax 2
()  => syntax 1
a 9223372036854775808 => syntax 2
) 9223372036854775808 => syntax 0
- - 5 5 => syntax 6
9223372036854775808 => wide 0
-9223372036854775809 => wide 1
- 9223372036854775808 => wide 2
0009223372036854775808 => wide 0
99999999999999999999999 => wide 0
a + 9223372036854775808 => wide 4
9223372036854775808 ) => wide 0
upper(9223372036854775808 => wide 6
";

fn read(alloc: Global, text: &[u8]) -> Result<Expr, ParseFault> {
    if text.len() > MOST {
        return Err(ParseFault::NoMemory);
    }
    parse_expr(alloc, text)
}

// The canonical text of the tree that the text reads as, or its fault.
fn answer(alloc: Global, text: &[u8]) -> Result<String, Fail> {
    match read(alloc, text) {
        Ok(tree) => {
            let canonical = print_expr(alloc, &tree)?;
            Ok(String::from_str(alloc, str::from_utf8(canonical.as_slice())?)?)
        }
        Err(fault) => told(alloc, fault),
    }
}

#[test]
fn texts_read_as_these_trees(rt: HostRuntime) -> Result<(), Fail> {
    for line in READ.split('\n') {
        let Some((text, canonical)) = line.split_once(" => ") else {
            assert!(rt; line.is_empty(), "{line}");
            continue;
        };
        let found = answer(rt.alloc(), text.as_bytes())?;
        assert_eq!(rt; found.as_str(), canonical, "{line}");
        let again = answer(rt.alloc(), canonical.as_bytes())?;
        assert_eq!(rt; again.as_str(), canonical, "{line}");
    }
    Ok(())
}

#[test]
fn texts_have_their_first_fault_here(rt: HostRuntime) -> Result<(), Fail> {
    for line in REFUSED.split('\n') {
        let Some((text, fault)) = line.split_once(" => ") else {
            assert!(rt; line.is_empty(), "{line}");
            continue;
        };
        let found = answer(rt.alloc(), text.as_bytes())?;
        assert_eq!(rt; found.as_str(), fault, "{line}");
    }
    assert_eq!(rt; answer(rt.alloc(), b"a\0")?.as_str(), "syntax 1");
    assert_eq!(rt; answer(rt.alloc(), b"'\xff'")?.as_str(), "syntax 0");
    Ok(())
}

// So many times the front, the middle, and so many times the back.
fn nested(
    alloc: Global,
    count: usize,
    front: &[u8],
    middle: &[u8],
    back: &[u8],
) -> Result<Vec<u8>, Fail> {
    let mut text = Vec::new(alloc);
    for _ in 0..count {
        text.extend_from_slice(front)?;
    }
    text.extend_from_slice(middle)?;
    for _ in 0..count {
        text.extend_from_slice(back)?;
    }
    Ok(text)
}

// The answer to such a text.
fn nested_answer(
    alloc: Global,
    count: usize,
    front: &[u8],
    middle: &[u8],
    back: &[u8],
) -> Result<String, Fail> {
    answer(alloc, nested(alloc, count, front, middle, back)?.as_slice())
}

#[test]
fn depth_has_a_limit(rt: HostRuntime) -> Result<(), Fail> {
    let alloc = rt.alloc();
    let canonical = nested(alloc, 63, b"(NOT ", b"a", b")")?;
    let found = nested_answer(alloc, 63, b"NOT ", b"a", b"")?;
    assert!(rt; found.as_bytes() == canonical.as_slice());
    let found = nested_answer(alloc, 64, b"NOT ", b"a", b"")?;
    assert_eq!(rt; found.as_str(), "deep");
    let found = nested_answer(alloc, 64, b"- ", b"a b", b"")?;
    assert_eq!(rt; found.as_str(), "syntax 130");
    let found = nested_answer(alloc, 2000, b"(", b"a", b")")?;
    assert_eq!(rt; found.as_str(), "a");
    let found = nested_answer(alloc, 2000, b"(", b"a)", b")")?;
    assert_eq!(rt; found.as_str(), "syntax 4001");
    Ok(())
}
