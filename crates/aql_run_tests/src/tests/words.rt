// Scripts with words of the command line: limits, samples, plans, code motion and array-free forms.
use crate::tests::running::{Row, assert_rows};

const ROWS: &[Row<'static>] = &[
    // The budget, samples, and numbers past their limits.
    Row(
        &["--budget", "1000"],
        "summap(fn \\x => x)!(gen!5000000);",
        12,
        "fault budget in declaration 1\n",
    ),
    Row(
        &["--sample", "1000"],
        "not read",
        0,
        "typ it : {nat}\nval it = {0, 1, 2, 3, 4}\ntyp it : nat\nval it = 499500\ntyp it : nat\nval it = 10\n",
    ),
    Row(
        &["--sample", "1000", "--workers", "8"],
        "",
        0,
        "typ it : {nat}\nval it = {0, 1, 2, 3, 4}\ntyp it : nat\nval it = 499500\ntyp it : nat\nval it = 10\n",
    ),
    Row(
        &["--sample", "1000000"],
        "",
        0,
        "typ it : {nat}\nval it = {0, 1, 2, 3, 4}\ntyp it : nat\nval it = 499999500000\ntyp it : nat\nval it = 10\n",
    ),
    Row(&["--workers", "0"], "1;", 2, ""),
    Row(&["--workers", "65"], "1;", 2, ""),
    Row(&["--budget", "50000001"], "1;", 2, ""),
    Row(&["--sample", "1000001"], "1;", 2, ""),
    Row(
        &["--workers", "64", "--budget", "50000000"],
        "1+2*3;",
        0,
        "typ it : nat\nval it = 7\n",
    ),
    Row(
        &["--budget", "10000000", "--workers", "1"],
        "summap(fn \\x => x)!(gen!5000000);",
        0,
        "typ it : nat\nval it = 12499997500000\n",
    ),
    Row(
        &["--budget", "10000000", "--workers", "8"],
        "summap(fn \\x => x)!(gen!5000000);",
        0,
        "typ it : nat\nval it = 12499997500000\n",
    ),
    Row(
        &["--budget", "9999999"],
        "summap(fn \\x => x)!(gen!5000000);",
        12,
        "fault budget in declaration 1\n",
    ),
    // Plans.
    Row(
        &["--plan"],
        "len!([[i | \\i<1000000000000]]);",
        0,
        "typ it : nat\nval it = 1000000000000\nplan it = 1000000000000\nrules it = A3\nturns it = 0\n",
    ),
    Row(
        &["--plan"],
        "[[(i,i) | \\i<10]][3];",
        0,
        "typ it : nat * nat\nval it = (3, 3)\nplan it = (3, 3)\nrules it = A1 L1 K1 I1\nturns it = 0\n",
    ),
    Row(
        &["--plan"],
        "summap(fn \\x => [[j | \\j<1000000000000]][x])!(gen!3);",
        0,
        "typ it : nat\nval it = 3\nplan it = S{x0 | x0 in gen(3)}\nrules it = L1 A1 L1 C4 I1\nturns it = 6\n",
    ),
    Row(
        &["--plan"],
        "summap(fn \\x => x)!({y | \\y <- gen!3});",
        0,
        "typ it : nat\nval it = 3\nplan it = S{x0 | x0 in gen(3)}\nrules it = L1 S6 L1\nturns it = 6\n",
    ),
    Row(
        &["--plan"],
        "len!([[10/i | \\i<3]]);",
        0,
        "typ it : nat\nval it = undefined\nplan it = dim_1([[(10 / x0) | x0<3]])\nrules it = none\nturns it = 3\n",
    ),
    Row(
        &["--plan"],
        "len!([[i*i | \\i<18446744073709551616]]);",
        0,
        "typ it : nat\nval it = 18446744073709551616\nplan it = 18446744073709551616\nrules it = A3\nturns it = 0\n",
    ),
    Row(
        &["--plan"],
        "len!([[10/i | \\i<3]]) default 0;",
        0,
        "typ it : nat\nval it = 0\nplan it = (dim_1([[(10 / x0) | x0<3]]) default 0)\nrules it = none\nturns it = 3\n",
    ),
    Row(
        &["--plan"],
        "1 default 1/0;",
        0,
        "typ it : nat\nval it = 1\nplan it = 1\nrules it = N2\nturns it = 0\n",
    ),
    Row(
        &["--plan"],
        "let val \\x = 1/0 in x default 3 end;",
        0,
        "typ it : nat\nval it = undefined\nplan it = undefined\nrules it = L2 K1 B1\nturns it = 0\n",
    ),
    Row(
        &["--plan"],
        "len!([[i*i | \\i<18446744073709551617]]);",
        12,
        "fault budget in declaration 1\n",
    ),
    // Code motion: a test of the outer member in the inner loop, and one that has no value, in a loop without members.
    Row(
        &["--plan", "--motion"],
        "{x | \\x <- gen!10000, \\y <- gen!10000, x < 5};",
        0,
        "typ it : {nat}\nval it = {0, 1, 2, 3, 4}\nplan it = U{U{(if (x0 < 5) then {x0} else {}) | x1 in gen(10000)} | x0 in gen(10000)}\nrules it = L1 L1\nturns it = 120000\nmoved it = U{(if (x0 < 5) then U{{x0} | x1 in gen(10000)} else {}) | x0 in gen(10000)}\nmoves it = M1\n",
    ),
    Row(
        &["--plan"],
        "{x | \\x <- gen!10000, \\y <- gen!10000, x < 5};",
        12,
        "fault budget in declaration 1\n",
    ),
    Row(
        &["--plan", "--motion"],
        "val \\n = 0; {1 | \\y <- gen!n, 1/n = 1};",
        0,
        "typ n : nat\nval n = 0\nplan n = 0\nrules n = none\nturns n = 0\nmoved n = 0\nmoves n = none\ntyp it : {nat}\nval it = {}\nplan it = U{(if ((1 / @1) = 1) then {1} else {}) | x0 in gen(@1)}\nrules it = L1\nturns it = 0\nmoved it = U{(if ((1 / @1) = 1) then {1} else {}) | x0 in gen(@1)}\nmoves it = none\n",
    ),
    // Array-free forms. That of the index takes 6 turns for the two members, 6 for the loops of the result, and 2 for each of its 3 cells.
    Row(
        &["--graph"],
        "[[i*10+j | \\i<2, \\j<2]];",
        0,
        "typ it : [[nat]]_2\nval it = [[2,2; 0, 1, 10, 11]]\ngraph it = ((2, 2), {((0, 0), 0), ((0, 1), 1), ((1, 0), 10), ((1, 1), 11)})\n",
    ),
    Row(
        &["--graph", "--budget", "18"],
        "index_1!({(0,5),(2,7)});",
        0,
        "typ it : [[{nat}]]_1\nval it = [[3; {5}, {}, {7}]]\ngraph it = (3, {(0, {5}), (1, {}), (2, {7})})\n",
    ),
    Row(
        &["--graph", "--budget", "10"],
        "[[i | \\i<10]];",
        0,
        "typ it : [[nat]]_1\nval it = [[10; 0, 1, 2, 3, 4, 5, 6, 7, 8, 9]]\ngraph it = spent\n",
    ),
    Row(
        &["--graph"],
        "[[3; 5, 6, 7]][3];",
        0,
        "typ it : nat\nval it = undefined\ngraph it = undefined\n",
    ),
];

#[test]
fn words_are_obeyed(rt: HostRuntime) {
    assert_rows(&rt, rt.alloc(), ROWS);
}
