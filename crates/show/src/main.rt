// Shows the numbers and angles at work until the text program exists: a root, a remainder, a sine and cosine, an angle,
// each with nine decimals, cut off. What it prints is compared with the file `stdout` beside src/.
#![tactic(auto)]

use std::io;

// x from 0 up, with nine decimals, cut off.
fn print_float(rt: &impl Print, text: &str, x: f64) -> io::Result<()> {
    let n = num::to_u64(x * 1000000000.0);
    println!(rt; "{text}{}.{:09}", n / 1000000000, n % 1000000000)
}

fn main(rt: HostRuntime) -> io::Result<()> {
    print_float(&rt, "the square root of 2             ", num::sqrt(2.0))?;
    print_float(
        &rt,
        "-1 brought to 0 up to 2 pi       ",
        num::rem_euclid(-1.0, 6.283185307179586),
    )?;
    let both = angle::sin_cos(0.5235987755982988);
    print_float(&rt, "sine of 30 degrees               ", both.sin)?;
    print_float(&rt, "cosine of 30 degrees             ", both.cos)?;
    print_float(
        &rt,
        "the angle of the point (3, 4)    ",
        angle::atan2(4.0, 3.0),
    )?;
    print_float(&rt, "the angle whose cosine is -0.5   ", angle::acos(-0.5))
}
