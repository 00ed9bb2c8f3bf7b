use crate::answer::formula_table;
use crate::words::{judge_line, judge_refusal};
use records::fault::JudgeFault;
use std::test::Fail;

// What is printed of a text: its table, or its refusal.
fn printed(rt: &HostRuntime, text: &[u8]) -> Result<String, Fail> {
    let heap = rt.alloc();
    match formula_table(heap, text)? {
        Ok(table) => Ok(table),
        Err(fault) => Ok(judge_refusal(heap, text, &fault)?),
    }
}

#[test]
fn tables(rt: HostRuntime) -> Result<(), Fail> {
    assert_eq!(rt;
        printed(&rt, b"P>0[aU<=7!b]")?.as_str(),
        concat!(
            "record\tkind\tfirst\tsecond\tcomparison\tnumber\tsteps\n",
            "0\t1\t0\t0\t0\t0\t0\n",
            "1\t1\t0\t0\t0\t1\t0\n",
            "2\t2\t1\t0\t0\t0\t0\n",
            "3\t5\t0\t2\t3\t0\t7\n",
        )
    );
    assert_eq!(rt;
        printed(&rt, b"(true&P>=1000000000[P<=1000000000[Xp]Uc])")?.as_str(),
        concat!(
            "record\tkind\tfirst\tsecond\tcomparison\tnumber\tsteps\n",
            "0\t0\t0\t0\t0\t0\t0\n",
            "1\t1\t0\t0\t0\t15\t0\n",
            "2\t4\t1\t0\t2\t1000000000\t0\n",
            "3\t1\t0\t0\t0\t2\t0\n",
            "4\t6\t2\t3\t4\t1000000000\t0\n",
            "5\t3\t0\t4\t0\t0\t0\n",
        )
    );
    Ok(())
}

#[test]
fn no_formulas(rt: HostRuntime) -> Result<(), Fail> {
    assert_eq!(rt;
        printed(&rt, b"")?.as_str(),
        "refused 20 place 0: a formula has 1 to 1024 bytes; write one of that length\n",
    );
    assert_eq!(rt;
        printed(&rt, b"P>=5[a")?.as_str(),
        concat!(
            "refused 21 place 6: no formula goes on like this; write true, a letter from a to p, !f, (f&g), or P, a comparison, ",
            "a bound and [Xf], [fUg] or [fU<=STEPSg], with no blanks\n",
            "P>=5[a\n",
            "      ^\n",
        )
    );
    // a tab stands under a tab, and `?` for a line feed and for bytes that are no ASCII
    assert_eq!(rt;
        printed(&rt, b"(a&\tb\n\xff)")?.as_str(),
        concat!(
            "refused 21 place 3: no formula goes on like this; write true, a letter from a to p, !f, (f&g), or P, a comparison, ",
            "a bound and [Xf], [fUg] or [fU<=STEPSg], with no blanks\n",
            "(a&\tb??)\n",
            "   ^\n",
        )
    );
    Ok(())
}

#[test]
fn formulas_outside_the_limits(rt: HostRuntime) -> Result<(), Fail> {
    assert_eq!(rt;
        printed(&rt, b"P>0[aU<=10001b]")?.as_str(),
        concat!(
            "refused 22 place 8: this number is too large; a bound is at most 1000000000, and an until has at most 10000 steps\n",
            "P>0[aU<=10001b]\n",
            "        ^\n",
        )
    );
    assert_eq!(rt;
        printed(&rt, b"!!!!!!!!!!!!!!!!!!!!!!!!!!!!!!!!a")?.as_str(),
        concat!(
            "refused 23 place 0: the formula is more than 32 deep; take levels out\n",
            "!!!!!!!!!!!!!!!!!!!!!!!!!!!!!!!!a\n",
            "^\n",
        )
    );
    assert_eq!(rt;
        printed(
            &rt,
            b"(!!!!!!!!!!!!!!!!!!!!!!!!!!!!!!a&(!!!!!!!!!!!!!!!!!!!!!!!!!!!!!b&!c))"
        )?
        .as_str(),
        concat!(
            "refused 24 place 0: there are more than 64 formulas in this one, or more than there are records; take some out\n",
            "(!!!!!!!!!!!!!!!!!!!!!!!!!!!!!!a&(!!!!!!!!!!!!!!!!!!!!!!!!!!!!!b&!c))\n",
            "^\n",
        )
    );
    assert_eq!(rt;
        printed(&rt, b"P>5[XP>5[aUb]]")?.as_str(),
        concat!(
            "refused 25 place 5: an until without steps stands only under >0, <=0 or >=1000000000; change the bound, or give the until steps, as in U<=100\n",
            "P>5[XP>5[aUb]]\n",
            "     ^\n",
        )
    );
    Ok(())
}

#[test]
fn buffers_of_a_judge(rt: HostRuntime) -> Result<(), Fail> {
    let heap = rt.alloc();
    assert_eq!(rt;
        judge_line(heap, &JudgeFault::Scratch)?.as_str(),
        "refused 26 place 0: the scratch has not a byte for each state of each formula; lend it that many bytes",
    );
    assert_eq!(rt;
        judge_refusal(heap, b"a", &JudgeFault::Out)?.as_str(),
        "refused 27 place 0: the output has not a byte for each state; lend it just as many bytes as there are states\n",
    );
    Ok(())
}
