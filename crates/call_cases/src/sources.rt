//! Sources, each with its tokens or its first refusal, written out from the rules of the language.

/// A line for each source: what it shows, the source, and its tokens as `{kind:?}` with place and length, or its refusal.
pub const ROWS: &str = "an empty source\t\tEnd 0 0
the first keywords\tchan proc left right logic reg loop let set\tKey(Chan) 0 4, Key(Proc) 5 4, Key(Left) 10 4, Key(Right) 15 5, Key(Logic) 21 5, Key(Reg) 27 3, Key(Loop) 31 4, Key(Let) 36 3, Key(Set) 40 3, End 43 0
the other keywords\tsend recv cycle if else shl shr cat\tKey(Send) 0 4, Key(Recv) 5 4, Key(Cycle) 10 5, Key(If) 16 2, Key(Else) 19 4, Key(Shl) 24 3, Key(Shr) 28 3, Key(Cat) 32 3, End 35 0
words that begin or end like keywords\tchann ifx Let _set\tWord(\"chann\") 0 5, Word(\"ifx\") 6 3, Word(\"Let\") 10 3, Word(\"_set\") 14 4, End 18 0
brackets and separators\t{}()[],;:.@#?\tMark(OpenBrace) 0 1, Mark(CloseBrace) 1 1, Mark(OpenParen) 2 1, Mark(CloseParen) 3 1, Mark(OpenBracket) 4 1, Mark(CloseBracket) 5 1, Mark(Comma) 6 1, Mark(Semicolon) 7 1, Mark(Colon) 8 1, Mark(Dot) 9 1, Mark(At) 10 1, Mark(Hash) 11 1, Mark(Question) 12 1, End 13 0
operators of one character\t~+-*&|^\tMark(Tilde) 0 1, Mark(Plus) 1 1, Mark(Minus) 2 1, Mark(Star) 3 1, Mark(Amp) 4 1, Mark(Bar) 5 1, Mark(Caret) 6 1, End 7 0
marks of two characters\t:=>>==!=<=>=\tMark(Assign) 0 2, Mark(Chain) 2 2, Mark(EqEq) 4 2, Mark(NotEq) 6 2, Mark(LessEq) 8 2, Mark(GreaterEq) 10 2, End 12 0
marks that are the front of longer ones\t: = < > =\tMark(Colon) 0 1, Mark(Equals) 2 1, Mark(Less) 4 1, Mark(Greater) 6 1, Mark(Equals) 8 1, End 9 0
the longest mark comes first\t=== >>= ::=\tMark(EqEq) 0 2, Mark(Equals) 2 1, Mark(Chain) 4 2, Mark(Equals) 6 1, Mark(Colon) 8 1, Mark(Assign) 9 2, End 11 0
words without blanks between\t*r(p.m)\tMark(Star) 0 1, Word(\"r\") 1 1, Mark(OpenParen) 2 1, Word(\"p\") 3 1, Mark(Dot) 4 1, Word(\"m\") 5 1, Mark(CloseParen) 6 1, End 7 0
numbers\t0 007 65\tNumber(0) 0 1, Number(7) 2 3, Number(65) 6 2, End 8 0
the greatest number\t4294967295\tNumber(4294967295) 0 10, End 10 0
a number of 2^32\t 4294967296\tBadNumber { at: 1 }
a literal of each base\t8'd255 16'hBeEf 4'b0110\tLiteral { width: 8, value: 255 } 0 6, Literal { width: 16, value: 48879 } 7 8, Literal { width: 4, value: 6 } 16 7, End 23 0
the greatest value of a literal\t128'd340282366920938463463374607431768211455\tLiteral { width: 128, value: 340282366920938463463374607431768211455 } 0 44, End 44 0
a value of 2^128\t1'd340282366920938463463374607431768211456\tBadNumber { at: 0 }
a value of 2^128 in hexadecimal digits\t1'h100000000000000000000000000000000\tBadNumber { at: 0 }
a literal of no width, whose value fits nothing\t0'd9\tLiteral { width: 0, value: 9 } 0 4, End 4 0
a width of 2^32\t4294967296'd1\tBadNumber { at: 0 }
a literal without digits\t8'd\tBadNumber { at: 0 }
a quote without a base\t8'\tBadNumber { at: 0 }
a base that there isn't\t8'o7\tBadNumber { at: 0 }
a digit of no binary literal\t8'b2\tBadNumber { at: 0 }
a binary literal that goes on\t8'b12\tBadNumber { at: 0 }
blanks inside a literal\t8 'd1\tBadChar { at: 2 }
a second quote\t8'd1'd1\tBadChar { at: 4 }
digits before a letter\t12ab\tBadNumber { at: 0 }
digits before `_`\tx 1_000\tBadNumber { at: 2 }
digits before a letter past ASCII\t7\u{e9}\tBadNumber { at: 0 }
words past ASCII\tgr\u{f6}\u{df}e = \u{3c0}2\tWord(\"gr\u{f6}\u{df}e\") 0 7, Mark(Equals) 8 1, Word(\"\u{3c0}2\") 10 3, End 13 0
a digit past ASCII begins no token\t\u{663}\tBadChar { at: 0 }
a place past ASCII is counted in bytes\t\u{f6}\u{f6} $\tBadChar { at: 5 }
a name of 64 bytes\ta_name_of_sixty_four_bytes_______40________50________60_____last\tWord(\"a_name_of_sixty_four_bytes_______40________50________60_____last\") 0 64, End 64 0
a name of 65 bytes\ta_name_of_sixty_four_bytes_______40________50________60_____last_\tLongName { at: 0 }
a name whose 64th byte is inside a character\ta_name_of_sixty_four_bytes_______40________50________60_____las\u{fc}\tLongName { at: 0 }
a mark that is no mark\tproc c() { ! }\tBadChar { at: 11 }
a slash alone\ta / b\tBadChar { at: 2 }
a blank that is none\ta\u{a0}b\tBadChar { at: 1 }
a comment to the end\ta // b\tWord(\"a\") 0 1, End 6 0
an empty comment at the end\t//\tEnd 2 0
the first of two refusals\t12 ! 12ab\tBadChar { at: 3 }
";

/// Sources that are no line, and sources that are no UTF-8.
pub const BYTES: [(&str, &[u8], &str); 6] = [
    ("blanks alone", b" \t\r\n", "End 4 0"),
    (
        "a comment ends at its line feed",
        b"a // b\nc//d\r\n//e\n// f",
        "Word(\"a\") 0 1, Word(\"c\") 7 1, End 21 0",
    ),
    (
        "a comment hides what would be refused, and quotes",
        b"// ! 12ab \xc3\xb6 ' \" //\n;",
        "Mark(Semicolon) 20 1, End 21 0",
    ),
    ("no UTF-8 at the end", b"proc\xff", "NotUtf8 { at: 4 }"),
    (
        "no UTF-8 after another refusal",
        b"! 12ab \xc3",
        "NotUtf8 { at: 7 }",
    ),
    (
        "no UTF-8 inside a comment",
        b"// \xff\n",
        "NotUtf8 { at: 3 }",
    ),
];
