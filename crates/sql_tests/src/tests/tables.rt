//! What expressions come to, from outside: the PostgreSQL manual's sentences, tables and examples, and our own rules.
//!
//! A line is an expression, ` => ` and what it comes to. An operator stands after its operands. In a text `_` stands
//! for a space, `x:4` is the text xxxx, `case/2` takes two arms and the ELSE, and `coalesce/3` takes three arguments.
//! The columns are `id` bigint, `name` text and `flag` boolean, in the row (7, 'ann', NULL).

/// Each expression's value, or the fault in its place.
pub const VALUES: &str = "\
# 9.1 Logical Operators: the tables whole
TRUE TRUE AND => TRUE
TRUE FALSE AND => FALSE
TRUE NULL AND => NULL
FALSE TRUE AND => FALSE
FALSE FALSE AND => FALSE
FALSE NULL AND => FALSE
NULL TRUE AND => NULL
NULL FALSE AND => FALSE
NULL NULL AND => NULL
TRUE TRUE OR => TRUE
TRUE FALSE OR => TRUE
TRUE NULL OR => TRUE
FALSE TRUE OR => TRUE
FALSE FALSE OR => FALSE
FALSE NULL OR => NULL
NULL TRUE OR => TRUE
NULL FALSE OR => NULL
NULL NULL OR => NULL
TRUE NOT => FALSE
FALSE NOT => TRUE
NULL NOT => NULL
# our own: AND and OR look at the right side only where the left one doesn't decide
FALSE 1 0 / 1 = AND => FALSE
TRUE 1 0 / 1 = OR => TRUE
TRUE 1 0 / 1 = AND => DivZero
NULL 1 0 / 1 = AND => DivZero
FALSE 1 0 / 1 = OR => DivZero
NULL 1 0 / 1 = OR => DivZero
1 0 / 1 = FALSE AND => DivZero
1 0 / 1 = TRUE OR => DivZero
# 9.2 Comparison Functions and Operators
1 2 < => TRUE
2 2 < => FALSE
2 2 <= => TRUE
3 2 <= => FALSE
3 2 > => TRUE
2 2 > => FALSE
2 2 >= => TRUE
1 2 >= => FALSE
2 2 = => TRUE
2 2 <> => FALSE
-5 3 < => TRUE
-9223372036854775808 9223372036854775807 < => TRUE
NULL NULL = => NULL
7 NULL = => NULL
7 NULL <> => NULL
NULL isnull => TRUE
7 isnull => FALSE
NULL 7 + isnull => TRUE
1 0 / isnull => DivZero
# 8.6 Boolean Type, and our own: false is less than true
FALSE TRUE < => TRUE
TRUE FALSE < => FALSE
TRUE TRUE = => TRUE
# our own: text by its bytes in UTF-8
'B' 'a' < => TRUE
'a' 'ab' < => TRUE
'' 'a' < => TRUE
'10' '9' < => TRUE
'z' 'é' < => TRUE
'é' 'z' < => FALSE
'\u{ffff}' '😀' < => TRUE
'a' 'a_' = => FALSE
'abc' 'abc' = => TRUE
# 9.3 Mathematical Functions and Operators
2 3 + => 5
2 3 - => -1
2 3 * => 6
5 2 / => 2
-5 2 / => -2
5 -2 / => -2
-5 -2 / => 2
-7 2 / => -3
5 4 % => 1
7 2 % => 1
-7 2 % => -1
7 -2 % => 1
-7 -2 % => -1
4 neg => -4
NULL 1 + => NULL
1 NULL * => NULL
NULL neg => NULL
1 0 / => DivZero
0 0 / => DivZero
1 0 % => DivZero
NULL 0 / => NULL
# 8.1 Numeric Types: the ends of bigint
9223372036854775806 1 + => 9223372036854775807
9223372036854775807 1 + => Range
-9223372036854775807 1 - => -9223372036854775808
-9223372036854775808 1 - => Range
9223372036854775807 2 * => Range
-4294967296 2147483648 * => -9223372036854775808
4294967296 2147483648 * => Range
-9223372036854775808 -1 * => Range
-9223372036854775808 -1 / => Range
-9223372036854775808 -1 % => 0
9223372036854775807 -1 % => 0
-9223372036854775808 neg => Range
9223372036854775807 neg => -9223372036854775807
# our own: the left part's fault before the right one's
1 0 / 9223372036854775807 1 + + => DivZero
9223372036854775807 1 + 1 0 / + => Range
'x' ::bigint 1 0 / = => BadText
NULL 1 0 / + => DivZero
# 9.4 String Functions and Operators
'Post' 'greSQL' || => 'PostgreSQL'
'a' NULL || => NULL
NULL 'a' || => NULL
'tom' upper => 'TOM'
'TOM' lower => 'tom'
'a1é' upper => 'A1é'
'Zß' lower => 'zß'
'__a_b__' trim => 'a_b'
'____' trim => ''
'\t_a' trim => '\t_a'
'jose' length => 4
'josé' length => 4
'😀' length => 1
'' length => 0
NULL length => NULL
NULL upper => NULL
NULL trim => NULL
# our own: a text of || has at most 4,096 bytes
x:4095 'y' || length => 4096
x:4096 'y' || => TooLong
x:4095 'é' || => TooLong
x:4096 NULL || => NULL
# 4.2.9 Type Casts, and our own: which texts a cast takes
'42' ::bigint => 42
'__-17__' ::bigint => -17
'+5' ::bigint => 5
'007' ::bigint => 7
'-0' ::bigint => 0
'-_5' ::bigint => BadText
'+-5' ::bigint => BadText
'-' ::bigint => BadText
'' ::bigint => BadText
'__' ::bigint => BadText
'1_2' ::bigint => BadText
'12a' ::bigint => BadText
'1.0' ::bigint => BadText
'\t5' ::bigint => BadText
'9223372036854775807' ::bigint => 9223372036854775807
'9223372036854775808' ::bigint => Range
'-9223372036854775808' ::bigint => -9223372036854775808
'-9223372036854775809' ::bigint => Range
'99999999999999999999999999' ::bigint => Range
'99999999999999999999999999x' ::bigint => BadText
-42 ::text => '-42'
0 ::text => '0'
-9223372036854775808 ::text => '-9223372036854775808'
TRUE ::text => 'true'
FALSE ::text => 'false'
't' ::boolean => TRUE
'_tRuE_' ::boolean => TRUE
'F' ::boolean => FALSE
'false' ::boolean => FALSE
'yes' ::boolean => BadText
'1' ::boolean => BadText
'tr' ::boolean => BadText
'' ::boolean => BadText
NULL ::bigint => NULL
NULL ::text => NULL
NULL ::boolean => NULL
42 ::bigint => 42
TRUE ::boolean => TRUE
'a' ::text => 'a'
# 9.18.1 CASE
id 7 = 'one' id 8 = 'two' 'other' case/2 => 'one'
id 6 = 'one' id 7 = 'two' 'other' case/2 => 'two'
id 5 = 'one' id 6 = 'two' 'other' case/2 => 'other'
NULL 'a' 'b' case/1 => 'b'
0 0 <> 1 0 / 1 > FALSE case/1 => FALSE
TRUE 1 1 0 / 1 = 2 3 case/2 => 1
TRUE 1 1 0 / case/1 => 1
1 0 / 1 = 1 2 case/1 => DivZero
FALSE 1 NULL case/1 => NULL
# 9.18.2 COALESCE and 9.18.3 NULLIF
NULL NULL 3 coalesce/3 => 3
1 1 0 / coalesce/2 => 1
NULL 1 0 / coalesce/2 => DivZero
NULL NULL coalesce/2 => NULL
1 1 nullif => NULL
1 2 nullif => 1
NULL 1 nullif => NULL
1 NULL nullif => 1
1 1 0 / nullif => DivZero
# columns
id => 7
name upper => 'ANN'
flag isnull => TRUE
flag FALSE AND => FALSE
";

/// Each expression's type, `NULL` for that of NULL, or the fault in its place.
pub const TYPES: &str = "\
# result types, where all operands are NULL too
1 2 + => bigint
NULL NULL + => bigint
NULL neg => bigint
NULL NULL || => text
NULL NULL = => boolean
NULL NULL AND => boolean
NULL NOT => boolean
1 isnull => boolean
NULL upper => text
NULL length => bigint
NULL ::text => text
'5' ::bigint => bigint
TRUE ::text => text
# forms of the one type of their parts
NULL => NULL
NULL NULL coalesce/2 => NULL
NULL 1 coalesce/2 => bigint
NULL NULL nullif => NULL
NULL 'a' nullif => text
TRUE NULL NULL case/1 => NULL
TRUE NULL 'a' case/1 => text
NULL TRUE FALSE case/1 => boolean
# columns
id => bigint
name => text
flag => boolean
age => NoColumn
# nothing is converted: a text literal is text
'5' 5 = => Mismatch
TRUE 1 = => Mismatch
'a' 1 || => Mismatch
1 TRUE + => Mismatch
'a' neg => Mismatch
TRUE 1 AND => Mismatch
1 NOT => Mismatch
1 upper => Mismatch
TRUE trim => Mismatch
1 length => Mismatch
1 ::boolean => Mismatch
TRUE ::bigint => Mismatch
1 NULL 'a' coalesce/3 => Mismatch
1 'a' nullif => Mismatch
1 'a' 'b' case/1 => Mismatch
TRUE 1 'a' case/1 => Mismatch
# the parts before the form, from left to right
age 1 'a' + = => NoColumn
1 'a' + age = => Mismatch
'a' age + => NoColumn
1 age 2 case/1 => NoColumn
TRUE 1 'a' age FALSE case/2 => NoColumn
1 'a' age coalesce/3 => NoColumn
";
