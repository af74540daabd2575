use rom_image::Image;
use std::test::Fail;

#[test]
fn an_image_is_read_whole(rt: HostRuntime) -> Result<(), Fail> {
    let mut bytes = vec![in rt.alloc(); 0u8; 43008]?;
    bytes[14336] = 0xA9;
    let image = Image::read(rt.alloc(), &bytes)?;
    assert_eq!(rt; image.bytes(), bytes.as_slice());
    assert_eq!(rt; image.byte_at(0x9000), Some(0xA9));
    Ok(())
}

#[test]
fn a_blank_image_takes_bytes(rt: HostRuntime) -> Result<(), Fail> {
    let mut image = Image::blank(rt.alloc())?;
    image.put(0xFFFD, 0x90);
    assert_eq!(rt; image.byte_at(0xFFFD), Some(0x90));
    assert_eq!(rt; image.byte_at(0xFFFC), Some(0));
    Ok(())
}
