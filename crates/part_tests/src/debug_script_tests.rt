use debug_script::{Command, Span, read_script};
use std::test::Fail;

#[test]
fn a_script_gives_its_commands(rt: HostRuntime) -> Result<(), Fail> {
    let text = b"break aBcD\n\nuntil 281474976710656\nmem FFFF 256\ngo";
    let commands = read_script(rt.alloc(), text)?;
    let expected = [
        Command::Break(0xABCD),
        Command::Until(281_474_976_710_656),
        Command::Mem(Span {
            from: 0xFFFF,
            count: 256,
        }),
        Command::Go,
    ];
    assert!(rt; commands.as_slice() == expected.as_slice());
    Ok(())
}
