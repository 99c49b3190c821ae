// Captures and their listings, one behind the other, each under its name.
#![tactic(auto)]

use std::io;

fn show(rt: &impl Print, name: &str, capture: &[u8]) -> io::Result<()> {
    let mut text = [0u8; listing::ROOM];
    let length = listing::render(capture, &mut text).unwrap();
    rt.print(name)?;
    rt.write_all(&text[..length])
}

// A buffer that is one byte too small: the answer is none, shown as 0, and its first byte is as it was.
fn show_refused(rt: &impl Print) -> io::Result<()> {
    let mut text = [b'-'; listing::ROOM - 1];
    let length = listing::render(b"01110100", &mut text).unwrap_or(0);
    let first = [text[0], b'\n'];
    print!(rt; "\nbuffer too small\n{length}")?;
    rt.write_all(&first)
}

fn show_all(rt: &impl Print, cases: &[(&str, &[u8])]) -> io::Result<()> {
    for (name, capture) in cases {
        show(rt, name, capture)?;
    }
    Ok(())
}

fn show_short(rt: &impl Print) -> io::Result<()> {
    let cases: [(&str, &[u8]); 13] = [
        (
            "every report\n",
            b"01110100 0100 1010000010 0110 11111010100000 0101 11110100 0101 1100",
        ),
        (
            "\nparity: bit 13 of the example made 0\n",
            b"01110100 0100 0010000010 0101 1111 0100",
        ),
        ("\nparity, at the first flag\n", b"01110100 00 0100"),
        ("\nescape: ESC ESC\n", b"01110100 0111 0111 0100"),
        ("\nescape: ESC EOP\n", b"01110100 0111 0101"),
        ("\nescape: ESC EEP\n", b"01110100 0111 0110"),
        (
            "\nparity before escape: an ESC of bad parity behind an ESC\n",
            b"01110100 0111 1111",
        ),
        ("\nempty\n", b""),
        ("\nnoise in front\n", b"0 01110100"),
        ("\nCR LF\n", b"01110100\r\n0100\r\n0100\r\n"),
        ("\nbad\n", b"01110100 0100 01x0"),
        ("\nbad at once\n", b"\t01110100"),
        ("\nbad after an error\n", b"01110100 00\n0100\n2"),
    ];
    show_all(rt, &cases)
}

fn show_lengths(rt: &impl Print) -> io::Result<()> {
    let zeros = [b'0'; 65537];
    let mut spoilt = zeros;
    spoilt[65535] = b'x';
    let cases: [(&str, &[u8]); 4] = [
        ("\n65,536 bytes\n", &zeros[..65536]),
        ("\n65,537 bytes\n", &zeros),
        ("\n65,536 bytes, the last bad\n", &spoilt[..65536]),
        ("\n65,537 bytes, one bad\n", &spoilt),
    ];
    show_all(rt, &cases)
}

fn main(rt: HostRuntime) -> io::Result<()> {
    show_short(&rt)?;
    show_lengths(&rt)?;
    show_refused(&rt)
}
