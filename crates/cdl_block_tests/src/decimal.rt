// What decimals answer at their edges, and the texts that are read and written.
use cdl_decimal::DecimalError::{NotDecimal, OutOfRange, TooLong};
use cdl_decimal::{Real, line, mean, parse, text, weighted_sum};
use std::test::Fail;

// What each operation answers at two counts: its name, the counts, and the answer.
const OPERATIONS: &str = "add 10000000000000000 1 none\n\
    add 10000000000000000 0 10000000000000000\n\
    add -10000000000000000 -1 none\n\
    add 1 2 3\n\
    sub 10000000000000000 1 9999999999999999\n\
    sub -10000000000000000 1 none\n\
    sub 10000000000000000 0 10000000000000000\n\
    sub 1 2 -1\n\
    mul 1000001 500000 500000\n\
    mul 1000001 1500000 1500002\n\
    mul 1 1 0\n\
    mul 1 500000 0\n\
    mul 3 500000 2\n\
    mul 5 500000 2\n\
    mul -1 500000 0\n\
    mul -3 500000 -2\n\
    mul -5 500000 -2\n\
    mul 10000000000000000 1000000 10000000000000000\n\
    mul 10000000000000000 1000001 none\n\
    mul -10000000000000000 1000000 -10000000000000000\n\
    mul 10000000000000000 -1000000 -10000000000000000\n\
    mul 10000000000000000 10000000000000000 none\n\
    mul 5000000000000000 2000000 10000000000000000\n\
    mul 10000000000000000 999999 9999990000000000\n\
    div 1000000 3000000 333333\n\
    div 2000000 3000000 666667\n\
    div -1000000 3000000 -333333\n\
    div 1000000 -3000000 -333333\n\
    div -2000000 -3000000 666667\n\
    div 1 2000000 0\n\
    div 3 2000000 2\n\
    div -1 2000000 0\n\
    div -3 2000000 -2\n\
    div 3 -2000000 -2\n\
    div 5 -2000000 -2\n\
    div 1 0 none\n\
    div 0 0 none\n\
    div 0 -7 0\n\
    div 10000000000000000 1 none\n\
    div 10000000000000000 1000000 10000000000000000\n\
    div 10000000000000000 999999 none\n\
    div -10000000000000000 -1000000 10000000000000000\n\
    div 10000000000000000 -10000000000000000 -1000000\n\
    modulo 7 3 1\n\
    modulo -7 3 2\n\
    modulo 7 -3 -2\n\
    modulo -7 -3 -1\n\
    modulo 6 3 0\n\
    modulo -6 3 0\n\
    modulo 6 -3 0\n\
    modulo 0 -3 0\n\
    modulo 1 0 none\n\
    modulo 10000000000000000 10000000000000000 0\n\
    modulo -1 10000000000000000 9999999999999999\n\
    modulo 1 -10000000000000000 -9999999999999999\n\
    modulo -10000000000000000 9999999999999999 9999999999999998\n\
    modulo 10000000000000000 -7000000 -3000000\n\
    mean 1 0 0\n\
    mean -1 -2 -2\n\
    mean 1 2 2\n\
    mean 5 0 2\n\
    mean 10000000000000000 10000000000000000 10000000000000000\n\
    weighted_sum 1 250000 0\n\
    weighted_sum 3 250000 2\n\
    weighted_sum -5 250000 -2\n\
    weighted_sum 10000000000000000 500000 10000000000000000\n\
    weighted_sum 10000000000000000 500001 none\n\
    to_integer 500000 0 1\n\
    floor_integer 500000 0 0\n\
    to_integer -500000 0 -1\n\
    floor_integer -500000 0 -1\n\
    to_integer 499999 0 0\n\
    floor_integer 499999 0 0\n\
    to_integer 1499999 0 1\n\
    floor_integer 1499999 0 1\n\
    to_integer 1500000 0 2\n\
    floor_integer 1500000 0 1\n\
    to_integer 2500000 0 3\n\
    floor_integer 2500000 0 2\n\
    to_integer -2500000 0 -3\n\
    floor_integer -2500000 0 -3\n\
    to_integer -1000001 0 -1\n\
    floor_integer -1000001 0 -2\n\
    to_integer -1 0 0\n\
    floor_integer -1 0 -1\n\
    to_integer 0 0 0\n\
    floor_integer 0 0 0\n\
    to_integer 2147483647499999 0 2147483647\n\
    floor_integer 2147483647499999 0 2147483647\n\
    to_integer 2147483647500000 0 none\n\
    floor_integer 2147483647500000 0 2147483647\n\
    to_integer -2147483647499999 0 -2147483647\n\
    floor_integer -2147483647499999 0 none\n\
    to_integer -2147483647500000 0 none\n\
    floor_integer -2147483647500000 0 none\n\
    to_integer 2147483647999999 0 none\n\
    floor_integer 2147483647999999 0 2147483647\n\
    to_integer 2147483648000000 0 none\n\
    floor_integer 2147483648000000 0 none\n\
    to_integer -2147483647000000 0 -2147483647\n\
    floor_integer -2147483647000000 0 -2147483647\n\
    to_integer -2147483647000001 0 -2147483647\n\
    floor_integer -2147483647000001 0 none\n\
    to_integer 10000000000000000 0 none\n\
    floor_integer 10000000000000000 0 none";

// Two points, a place and the height there.
const LINES: &str = "0 0 2000000 1 1000000 0\n\
    0 0 2000000 3 1000000 2\n\
    0 10 1000000 20 -1000000 0\n\
    0 10 1000000 20 3000000 40\n\
    1 0 1 5 1 none\n\
    2 0 1 5 1 none\n\
    0 0 3 1000000 1 333333\n\
    0 0 3 -1000000 2 -666667\n\
    -10000000000000000 -10000000000000000 10000000000000000 10000000000000000 10000000000000000 10000000000000000\n\
    -10000000000000000 -10000000000000000 10000000000000000 10000000000000000 1 1\n\
    0 0 1 1 10000000000000000 10000000000000000\n\
    0 0 1 2 10000000000000000 none\n\
    -10000000000000000 10000000000000000 10000000000000000 -10000000000000000 0 0\n\
    0 10000000000000000 1 10000000000000000 7 10000000000000000";

// What a text is read as.
const READ: &str = "NotDecimal=\n\
    NotDecimal=+\n\
    NotDecimal=-\n\
    NotDecimal=.5\n\
    5000000=5.\n\
    NotDecimal=1e\n\
    NotDecimal=1e+\n\
    NotDecimal=--1\n\
    NotDecimal=+-1\n\
    NotDecimal= 1\n\
    NotDecimal=1 \n\
    NotDecimal=1 2\n\
    NotDecimal=0x1\n\
    NotDecimal=1_0\n\
    NotDecimal=1.2.3\n\
    NotDecimal=1e2.5\n\
    NotDecimal=1e1e1\n\
    NotDecimal=é\n\
    NotDecimal=１\n\
    NotDecimal=1\0\n\
    NotDecimal=nan\n\
    NotDecimal=1,5\n\
    0=0\n\
    0=-0\n\
    0=+0\n\
    0=00\n\
    0=-0.0\n\
    0=0.\n\
    7000000=+7\n\
    7500000=007.50\n\
    3250000=3.25\n\
    -3250000=-3.25\n\
    100000000=1e2\n\
    100000000=1E2\n\
    100000000=1e+2\n\
    10000=1e-2\n\
    1500=1.5e-3\n\
    120000000=12.e1\n\
    0=0.0000005\n\
    2=0.0000015\n\
    2=0.0000025\n\
    0=-0.0000005\n\
    -2=-0.0000015\n\
    -2=-0.0000025\n\
    1=0.00000050000000000000000000001\n\
    0=0.0000004999999999999999999999\n\
    1=0.00000149999999999999999999\n\
    10000000000000000=10000000000\n\
    -10000000000000000=-10000000000\n\
    10000000000000000=10000000000.0000005\n\
    OutOfRange=10000000000.00000050000000001\n\
    10000000000000000=10000000000.0000004999999999\n\
    OutOfRange=10000000000.000001\n\
    10000000000000000=9999999999.9999995\n\
    9999999999999999=9999999999.9999994\n\
    -10000000000000000=-10000000000.0000005\n\
    OutOfRange=-10000000000.00000051\n\
    10000000000000000=1e10\n\
    OutOfRange=1e11\n\
    OutOfRange=1e999\n\
    OutOfRange=-1e999\n\
    0=1e-999\n\
    0=-1e-999\n\
    0=0e999\n\
    0=0.000e-999\n\
    TooLong=1e0999\n\
    TooLong=0e0000\n\
    TooLong=1e-0001\n\
    NotDecimal=1e0999x\n\
    OutOfRange=999999999999999999999999999999\n\
    TooLong=9999999999999999999999999999999\n\
    TooLong=0000000000000000000000000000000\n\
    1000000=000000000000000000000000000001\n\
    333333=0.33333333333333333333333333333\n\
    TooLong=0.333333333333333333333333333333\n\
    OutOfRange=111111111111111.111111111111111\n\
    TooLong=111111111111111.1111111111111111\n\
    1234567890123457=123456789012345678901234567890e-20\n\
    12345678901=123456789012345678901234567890e-25\n\
    10000000000000000=100000000000000000000000000000e-19\n\
    10000000000000000=100000000000000000000000000001e-19\n\
    0=500000000000000000000000000000e-36\n\
    1=500000000000000000000000000001e-36\n\
    0=499999999999999999999999999999e-36\n\
    TooLong=0.000000000000000000000000000001e24\n\
    10000000000000000=0.00000000000000000000000000001e39\n\
    OutOfRange=0.00000000000000000000000000001e40\n\
    0=5e-7\n\
    2=15e-7\n\
    2=25e-7\n\
    -2=-15e-7\n\
    0=5e-8\n\
    0=500000000000000000000000000000e-037";

// Counts and their texts.
const WRITTEN: &str = "0=0\n\
    1=0.000001\n\
    -1=-0.000001\n\
    10=0.00001\n\
    1000000=1\n\
    -1500000=-1.5\n\
    123456789=123.456789\n\
    100=0.0001\n\
    999999=0.999999\n\
    -999999=-0.999999\n\
    10000000=10\n\
    10000000000000000=10000000000\n\
    -10000000000000000=-10000000000\n\
    9999999999999999=9999999999.999999\n\
    1000001=1.000001\n\
    20300000=20.3";

fn real(cell: Option<&str>) -> Result<Real, Fail> {
    let count: i64 = cell.ok_or("no cell")?.parse()?;
    Ok(Real::from_count(count).ok_or("out of range")?)
}

fn count(value: Option<Real>) -> Option<i64> {
    value.map(|v| v.count())
}

fn answer(name: &str, a: Real, b: Real) -> Option<i64> {
    match name {
        "add" => count(a.add(b)),
        "sub" => count(a.sub(b)),
        "mul" => count(a.mul(b)),
        "div" => count(a.div(b)),
        "modulo" => count(a.modulo(b)),
        "mean" => count(mean(&[a, b])),
        "weighted_sum" => count(weighted_sum(&[a, b], &[b, a])),
        "to_integer" => a.to_integer().map(|w| w as i64),
        _ => a.floor_integer().map(|w| w as i64),
    }
}

// What 256 of the greatest products sum to, the mean, and the sum where the first half has the other sign.
fn extreme_sums(greatest: Real, least: Real) -> (Option<i64>, Option<i64>, Option<i64>) {
    let weights = [greatest; 256];
    let mut items = weights;
    let sum = count(weighted_sum(&weights, &items));
    let middle = count(mean(&items));
    for i in 0..128 {
        items[i] = least;
    }
    (sum, middle, count(weighted_sum(&weights, &items)))
}

#[test]
fn operations_round_once(rt: HostRuntime) -> Result<(), Fail> {
    for row in OPERATIONS.lines() {
        let mut cells = row.split_whitespace();
        let name = cells.next().ok_or("no name")?;
        let got = answer(name, real(cells.next())?, real(cells.next())?);
        let want: Option<i64> = cells.next().ok_or("no answer")?.parse().ok();
        assert_eq!(rt; got, want, "{row}");
    }
    for row in LINES.lines() {
        let mut cells = row.split_whitespace();
        let first = (real(cells.next())?, real(cells.next())?);
        let second = (real(cells.next())?, real(cells.next())?);
        let got = line(first.0, first.1, second.0, second.1, real(cells.next())?);
        let want: Option<i64> = cells.next().ok_or("no answer")?.parse().ok();
        assert_eq!(rt; count(got), want, "{row}");
    }
    let greatest = real(Some("10000000000000000"))?;
    let sums = extreme_sums(greatest, real(Some("-10000000000000000"))?);
    assert_eq!(rt; sums, (None, Some(greatest.count()), Some(0)));
    Ok(())
}

fn is_read_as(text: &str, want: &str) -> bool {
    match parse(text.as_bytes()) {
        Ok(value) => want.parse().ok() == Some(value.count()),
        Err(NotDecimal) => want == "NotDecimal",
        Err(TooLong) => want == "TooLong",
        Err(OutOfRange) => want == "OutOfRange",
    }
}

#[test]
fn texts_are_read_and_written(rt: HostRuntime) -> Result<(), Fail> {
    for row in READ.lines() {
        let (want, text) = row.split_once('=').ok_or("no text")?;
        assert!(rt; is_read_as(text, want), "{row}");
    }
    for row in WRITTEN.lines() {
        let (value, want) = row.split_once('=').ok_or("no text")?;
        let written = text(rt.alloc(), real(Some(value))?)?;
        assert_eq!(rt; written.bytes(), want.as_bytes(), "{row}");
    }
    Ok(())
}
