// Answers that are checked, converted and reduced, and that decide goals and simplify terms.
use crate::bench::Bench;

/// An answer to f(f(x)) = a.
const SQUARE: &str =
    "MKBTT 2;SYMBOLS f/1 a/0;EQUATIONS 1;f(f(x1)) = a;RULES 2;f(f(x1)) -> a : 1;f(a) -> a : 2;CONSTRAINTS 2;f(f(x1)) -> a : 1;f(a) -> a : 2;ORDER LPO f a;TRACE 2;1 input 1 : f(f(x1)) = a;2 overlap 1 dir 0 with 1 dir 0 at 1 : f(a) = a;END;";

/// The same in version 1, which has no constraints.
const OLD_SQUARE: &str =
    "MKBTT 1;SYMBOLS f/1 a/0;EQUATIONS 1;f(f(x1)) = a;RULES 2;f(f(x1)) -> a : 1;f(a) -> a : 2;ORDER LPO f a;TRACE 2;1 input 1 : f(f(x1)) = a;2 overlap 1 dir 0 with 1 dir 0 at 1 : f(a) = a;END;";

/// What the checker says of the first with other text in it.
const ALTERED: &str =
    "CONSTRAINTS 2;f(f(x1)) -> a : 1; | CONSTRAINTS 2;f(f(x1)) -> a : 2; | REJECTED untracedconstraint 1
CONSTRAINTS 2;f(f(x1)) -> a : 1; | CONSTRAINTS 2;f(a) -> a : 1; | REJECTED untracedconstraint 1
ORDER LPO f a | ORDER LPO a f | REJECTED constraintnotoriented 1
END; | END;GOALS 1; | mkbtt: refused line 16
MKBTT 2;SYMBOLS f/1 a/0;EQUATIONS 1;f(f(x1)) = a;RULES 2;f(f(x1)) -> a : 1;f(a) -> a : 2;CONSTRAINTS 2;f(f(x1)) -> a : 1;f(a) -> a : 2;ORDER LPO f a;TRACE 2;1 input 1 : f(f(x1)) = a;2 overlap 1 dir 0 with 1 dir 0 at 1 : f(a) = a;END; | MKBTT 1; | mkbtt: refused line 2
MKBTT 2;SYMBOLS f/1 a/0;EQUATIONS 1;f(f(x1)) = a;RULES 2;f(f(x1)) -> a : 1;f(a) -> a : 2;CONSTRAINTS 2;f(f(x1)) -> a : 1;f(a) -> a : 2;ORDER LPO f a;TRACE 2;1 input 1 : f(f(x1)) = a;2 overlap 1 dir 0 with 1 dir 0 at 1 : f(a) = a;END; | (VAR x)(RULES f(x) == x) | mkbtt: refused line 1
";

/// What it says of the second.
const OLD_ALTERED: &str = "ORDER LPO f a | ORDER LPO f a | ACCEPTED
RULES 2;f(f(x1)) -> a : 1;f(a) -> a : 2; | RULES 1;f(f(x1)) -> a : 1; | REJECTED notjoined 1
at 1 | at e | REJECTED badstep 2
ORDER LPO f a | ORDER LPO a f | REJECTED notoriented 1
f(a) -> a : 2 | f(a) -> a : 1 | REJECTED untraced 2
EQUATIONS 1;f(f(x1)) = a; | EQUATIONS 2;f(f(x1)) = a;f(x1) = a; | REJECTED notproved 2
1 input 1 | 1 input 2 | REJECTED badstep 1
ORDER LPO f a | ORDER LINEAR 0,2 0 | REJECTED notoriented 1
";

/// What the modes that read more than an answer say where there is no more, or too little.
const NOTHING_ASKED: &str = "END; | END;GOALS 1; | mkbtt: refused line 16
MKBTT 2;SYMBOLS f/1 a/0;EQUATIONS 1;f(f(x1)) = a;RULES 2;f(f(x1)) -> a : 1;f(a) -> a : 2;CONSTRAINTS 2;f(f(x1)) -> a : 1;f(a) -> a : 2;ORDER LPO f a;TRACE 2;1 input 1 : f(f(x1)) = a;2 overlap 1 dir 0 with 1 dir 0 at 1 : f(a) = a;END; | MKBTT 1; | mkbtt: refused line 2
MKBTT 2;SYMBOLS f/1 a/0;EQUATIONS 1;f(f(x1)) = a;RULES 2;f(f(x1)) -> a : 1;f(a) -> a : 2;CONSTRAINTS 2;f(f(x1)) -> a : 1;f(a) -> a : 2;ORDER LPO f a;TRACE 2;1 input 1 : f(f(x1)) = a;2 overlap 1 dir 0 with 1 dir 0 at 1 : f(a) = a;END; | (VAR x)(RULES f(x) == x) | mkbtt: refused line 1
";

/// Answers that are right.
const CHECKS: &str = "$ check
MKBTT 2
SYMBOLS f/1 a/0
EQUATIONS 1
f(f(x1)) = a
RULES 2
f(f(x1)) -> a : 1
f(a) -> a : 2
CONSTRAINTS 2
f(f(x1)) -> a : 1
f(a) -> a : 2
ORDER LPO f a
TRACE 2
1 input 1 : f(f(x1)) = a
2 overlap 1 dir 0 with 1 dir 0 at 1 : f(a) = a
END
> 0
ACCEPTED
$ check
MKBTT 2
SYMBOLS a/0 b/0 c/0
EQUATIONS 2
a = b
b = c
RULES 2
a -> b : 1
b -> c : 2
CONSTRAINTS 0
ORDER LPO a b c
TRACE 2
1 input 1 : a = b
2 input 2 : b = c
END
> 0
ACCEPTED
$ check
MKBTT 2
SYMBOLS a/0 b/0 c/0
EQUATIONS 2
a = b
b = c
RULES 2
a -> c : 3
b -> c : 2
CONSTRAINTS 0
ORDER LPO a b c
TRACE 3
1 input 1 : a = b
2 input 2 : b = c
3 rewrite 1 side 1 at e by 2 dir 0 : a = c
END
> 0
ACCEPTED
$ check
MKBTT 2
SYMBOLS f/1 a/0 b/0
EQUATIONS 2
f(x1) = a
f(b) = a
RULES 2
f(x1) -> a : 1
f(b) -> a : 2
CONSTRAINTS 0
ORDER LPO f a b
TRACE 2
1 input 1 : f(x1) = a
2 input 2 : f(b) = a
END
> 0
ACCEPTED
$ check
MKBTT 2
SYMBOLS f/1 a/0 b/0
EQUATIONS 2
f(x1) = a
f(b) = a
RULES 1
f(x1) -> a : 1
CONSTRAINTS 0
ORDER LPO f a b
TRACE 2
1 input 1 : f(x1) = a
2 input 2 : f(b) = a
END
> 0
ACCEPTED
$ check
MKBTT 2
SYMBOLS d/1 p/2
EQUATIONS 1
d(x1) = p(x1,x1)
RULES 1
d(x1) -> p(x1,x1) : 1
CONSTRAINTS 0
ORDER LPO d p
TRACE 1
1 input 1 : d(x1) = p(x1,x1)
END
> 0
ACCEPTED
";

/// Answers in another version or format, and reduced.
const CONVERSIONS: &str = "$ convert
MKBTT 1
SYMBOLS f/1 a/0
EQUATIONS 1
f(f(x1)) = a
RULES 2
f(f(x1)) -> a : 1
f(a) -> a : 2
ORDER LPO f a
TRACE 2
1 input 1 : f(f(x1)) = a
2 overlap 1 dir 0 with 1 dir 0 at 1 : f(a) = a
END
> 0
MKBTT 2
SYMBOLS f/1 a/0
EQUATIONS 1
f(f(x1)) = a
RULES 2
f(f(x1)) -> a : 1
f(a) -> a : 2
CONSTRAINTS 0
ORDER LPO f a
TRACE 2
1 input 1 : f(f(x1)) = a
2 overlap 1 dir 0 with 1 dir 0 at 1 : f(a) = a
END
$ convert
MKBTT 2
SYMBOLS f/1 a/0
EQUATIONS 1
f(f(x1)) = a
RULES 2
f(f(x1)) -> a : 1
f(a) -> a : 2
CONSTRAINTS 0
ORDER LPO f a
TRACE 2
1 input 1 : f(f(x1)) = a
2 overlap 1 dir 0 with 1 dir 0 at 1 : f(a) = a
END
> 0
MKBTT 2
SYMBOLS f/1 a/0
EQUATIONS 1
f(f(x1)) = a
RULES 2
f(f(x1)) -> a : 1
f(a) -> a : 2
CONSTRAINTS 0
ORDER LPO f a
TRACE 2
1 input 1 : f(f(x1)) = a
2 overlap 1 dir 0 with 1 dir 0 at 1 : f(a) = a
END
$ convert
MKBTT 2
SYMBOLS f/1 a/0
EQUATIONS 1
f(f(x1)) = a
RULES 2
f(f(x1)) -> a : 1
f(a) -> a : 2
CONSTRAINTS 2
f(f(x1)) -> a : 1
f(a) -> a : 2
ORDER LPO f a
TRACE 2
1 input 1 : f(f(x1)) = a
2 overlap 1 dir 0 with 1 dir 0 at 1 : f(a) = a
END
> 0
MKBTT 2
SYMBOLS f/1 a/0
EQUATIONS 1
f(f(x1)) = a
RULES 2
f(f(x1)) -> a : 1
f(a) -> a : 2
CONSTRAINTS 2
f(f(x1)) -> a : 1
f(a) -> a : 2
ORDER LPO f a
TRACE 2
1 input 1 : f(f(x1)) = a
2 overlap 1 dir 0 with 1 dir 0 at 1 : f(a) = a
END
$ convert
MKBTT 1
SYMBOLS f/1 a/0
EQUATIONS 1
f(f(x1)) = a
RULES 1
f(f(x1)) -> a : 1
ORDER LPO f a
TRACE 2
1 input 1 : f(f(x1)) = a
2 overlap 1 dir 0 with 1 dir 0 at 1 : f(a) = a
END
> 0
MKBTT 2
SYMBOLS f/1 a/0
EQUATIONS 1
f(f(x1)) = a
RULES 1
f(f(x1)) -> a : 1
CONSTRAINTS 0
ORDER LPO f a
TRACE 2
1 input 1 : f(f(x1)) = a
2 overlap 1 dir 0 with 1 dir 0 at 1 : f(a) = a
END
$ convert --to trs
MKBTT 2
SYMBOLS f/1 a/0
EQUATIONS 1
f(f(x1)) = a
RULES 2
f(f(x1)) -> a : 1
f(a) -> a : 2
CONSTRAINTS 2
f(f(x1)) -> a : 1
f(a) -> a : 2
ORDER LPO f a
TRACE 2
1 input 1 : f(f(x1)) = a
2 overlap 1 dir 0 with 1 dir 0 at 1 : f(a) = a
END
> 0
(VAR x1)
(RULES
f(f(x1)) -> a
f(a) -> a
)
$ reduce
MKBTT 2
SYMBOLS a/0 b/0 c/0
EQUATIONS 2
a = b
b = c
RULES 2
a -> b : 1
b -> c : 2
CONSTRAINTS 0
ORDER LPO a b c
TRACE 2
1 input 1 : a = b
2 input 2 : b = c
END
> 0
MKBTT 2
SYMBOLS a/0 b/0 c/0
EQUATIONS 2
a = b
b = c
RULES 2
a -> c : 3
b -> c : 2
CONSTRAINTS 0
ORDER LPO a b c
TRACE 3
1 input 1 : a = b
2 input 2 : b = c
3 rewrite 1 side 1 at e by 2 dir 0 : a = c
END
$ reduce
MKBTT 2
SYMBOLS a/0 b/0 c/0
EQUATIONS 2
a = b
b = c
RULES 2
a -> c : 3
b -> c : 2
CONSTRAINTS 0
ORDER LPO a b c
TRACE 3
1 input 1 : a = b
2 input 2 : b = c
3 rewrite 1 side 1 at e by 2 dir 0 : a = c
END
> 0
MKBTT 2
SYMBOLS a/0 b/0 c/0
EQUATIONS 2
a = b
b = c
RULES 2
a -> c : 3
b -> c : 2
CONSTRAINTS 0
ORDER LPO a b c
TRACE 3
1 input 1 : a = b
2 input 2 : b = c
3 rewrite 1 side 1 at e by 2 dir 0 : a = c
END
$ reduce
MKBTT 2
SYMBOLS f/1 a/0 b/0
EQUATIONS 2
f(x1) = a
f(b) = a
RULES 2
f(x1) -> a : 1
f(b) -> a : 2
CONSTRAINTS 0
ORDER LPO f a b
TRACE 2
1 input 1 : f(x1) = a
2 input 2 : f(b) = a
END
> 0
MKBTT 2
SYMBOLS f/1 a/0 b/0
EQUATIONS 2
f(x1) = a
f(b) = a
RULES 1
f(x1) -> a : 1
CONSTRAINTS 0
ORDER LPO f a b
TRACE 2
1 input 1 : f(x1) = a
2 input 2 : f(b) = a
END
$ reduce
MKBTT 2
SYMBOLS f/1 a/0
EQUATIONS 1
f(f(x1)) = a
RULES 2
f(f(x1)) -> a : 1
f(a) -> a : 2
CONSTRAINTS 2
f(f(x1)) -> a : 1
f(a) -> a : 2
ORDER LPO f a
TRACE 2
1 input 1 : f(f(x1)) = a
2 overlap 1 dir 0 with 1 dir 0 at 1 : f(a) = a
END
> 0
MKBTT 2
SYMBOLS f/1 a/0
EQUATIONS 1
f(f(x1)) = a
RULES 2
f(f(x1)) -> a : 1
f(a) -> a : 2
CONSTRAINTS 2
f(f(x1)) -> a : 1
f(a) -> a : 2
ORDER LPO f a
TRACE 2
1 input 1 : f(f(x1)) = a
2 overlap 1 dir 0 with 1 dir 0 at 1 : f(a) = a
END
$ reduce
MKBTT 1
SYMBOLS f/1 a/0
EQUATIONS 1
f(f(x1)) = a
RULES 1
f(f(x1)) -> a : 1
ORDER LPO f a
TRACE 2
1 input 1 : f(f(x1)) = a
2 overlap 1 dir 0 with 1 dir 0 at 1 : f(a) = a
END
> 1
REJECTED notjoined 1
";

/// Goals that are decided, and terms that are simplified.
const DECISIONS: &str = "$ decide
MKBTT 1
SYMBOLS f/1 a/0
EQUATIONS 1
f(f(x1)) = a
RULES 2
f(f(x1)) -> a : 1
f(a) -> a : 2
ORDER LPO f a
TRACE 2
1 input 1 : f(f(x1)) = a
2 overlap 1 dir 0 with 1 dir 0 at 1 : f(a) = a
END
GOALS 2
f(f(f(x1))) = a
f(x1) = a
END
> 0
MKBTT DECIDE 1
1 YES 1 0
left e 1
2 NO
f(x1)
a
END
$ decide
MKBTT 2
SYMBOLS d/1 p/2
EQUATIONS 1
d(x1) = p(x1,x1)
RULES 1
d(x1) -> p(x1,x1) : 1
CONSTRAINTS 0
ORDER LPO d p
TRACE 1
1 input 1 : d(x1) = p(x1,x1)
END
GOALS 1
d(d(d(d(d(d(d(d(d(d(x1)))))))))) = x1
END
> 0
MKBTT DECIDE 1
1 UNKNOWN size
END
$ decide
MKBTT 1
SYMBOLS f/1 a/0
EQUATIONS 1
f(f(x1)) = a
RULES 1
f(f(x1)) -> a : 1
ORDER LPO f a
TRACE 2
1 input 1 : f(f(x1)) = a
2 overlap 1 dir 0 with 1 dir 0 at 1 : f(a) = a
END
GOALS 1
a = a
END
> 1
REJECTED notjoined 1
$ decide
MKBTT 2
SYMBOLS f/1 a/0
EQUATIONS 1
f(f(x1)) = a
RULES 2
f(f(x1)) -> a : 1
f(a) -> a : 2
CONSTRAINTS 2
f(f(x1)) -> a : 1
f(a) -> a : 2
ORDER LPO f a
TRACE 2
1 input 1 : f(f(x1)) = a
2 overlap 1 dir 0 with 1 dir 0 at 1 : f(a) = a
END
GOALS 0
END
> 0
MKBTT DECIDE 1
END
$ simplify
MKBTT 2
SYMBOLS f/1 a/0
EQUATIONS 1
f(f(x1)) = a
RULES 2
f(f(x1)) -> a : 1
f(a) -> a : 2
CONSTRAINTS 2
f(f(x1)) -> a : 1
f(a) -> a : 2
ORDER LPO f a
TRACE 2
1 input 1 : f(f(x1)) = a
2 overlap 1 dir 0 with 1 dir 0 at 1 : f(a) = a
END
TERMS 3
f(f(f(x1)))
f(x1)
f(f(a))
END
> 0
MKBTT SIMPLIFY 1
1 1 a
2 0 f(x1)
3 1 a
END
$ simplify
MKBTT 2
SYMBOLS d/1 p/2
EQUATIONS 1
d(x1) = p(x1,x1)
RULES 1
d(x1) -> p(x1,x1) : 1
CONSTRAINTS 0
ORDER LPO d p
TRACE 1
1 input 1 : d(x1) = p(x1,x1)
END
TERMS 1
d(d(d(d(d(d(d(d(d(d(x1))))))))))
END
> 0
MKBTT SIMPLIFY 1
1 UNKNOWN size
END
$ simplify
MKBTT 1
SYMBOLS f/1 a/0
EQUATIONS 1
f(f(x1)) = a
RULES 1
f(f(x1)) -> a : 1
ORDER LPO f a
TRACE 2
1 input 1 : f(f(x1)) = a
2 overlap 1 dir 0 with 1 dir 0 at 1 : f(a) = a
END
TERMS 0
END
> 1
REJECTED notjoined 1
";

#[test]
fn answers_are_checked(rt: HostRuntime) {
    let bench = Bench {
        rt: &rt,
        alloc: rt.alloc(),
    };
    bench.assert_cases(CHECKS);
    bench.assert_altered(&["check"], SQUARE, ALTERED);
    bench.assert_altered(&["check"], OLD_SQUARE, OLD_ALTERED);
}

#[test]
fn answers_are_worked_with(rt: HostRuntime) {
    let bench = Bench {
        rt: &rt,
        alloc: rt.alloc(),
    };
    bench.assert_cases(CONVERSIONS);
    bench.assert_cases(DECISIONS);
    for mode in ["convert", "reduce", "simplify"] {
        bench.assert_altered(&[mode], SQUARE, NOTHING_ASKED);
    }
}
