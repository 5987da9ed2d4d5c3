// The texts of an image of the demo.
ghost use Rattle.std.specs.Prelude.{◌≡◌, ◌<◌, ◌++◌, IfOk, OnOk, codes, length, string_bytes};
ghost use Rattle.demo_line.specs.Names.{demo_name, own_path};
ghost use Rattle.demo_inputs.specs.Bundles.{input_content, dependencies_text, hex_digit, hex_digits, id_text, manifest_text};

use command_outcomes::Output;
use std::alloc::{AllocError, Global};

/// The 120 zeros behind an image's number in its ID.
const ZEROS: &str =
    "000000000000000000000000000000000000000000000000000000000000000000000000000000000000000000000000000000000000000000000000";

fn push_name(alloc: Global, text: &mut Output, image: u32) -> Result<(), AllocError>
    ensures { OnOk result (text.new ≡ text.old ++ demo_name image) }
{
    text.push("demo/i")?;
    text.push_number(alloc, u64::from(image))
}

/// The name of an image: `demo/i` and its number. Refused only where memory ran out.
pub fn demo_name(alloc: Global, image: u32) -> Result<String, AllocError>
    ensures { IfOk result (λ name. string_bytes name ≡ demo_name image) }
{
    format!(in alloc; "demo/i{image}")
}

fn push_path(alloc: Global, text: &mut Output, image: u32) -> Result<(), AllocError>
    ensures { OnOk result (text.new ≡ text.old ++ own_path image) }
{
    text.push("/d")?;
    text.push_number(alloc, u64::from(image))
}

fn push_dependencies(alloc: Global, text: &mut Output, image: u32) -> Result<(), AllocError>
    ensures { OnOk result (text.new ≡ text.old ++ dependencies_text image) }
{
    if image == 0 {
        return Ok(());
    }
    text.push(",\"dependencies\":[{\"imageName\":\"")?;
    push_name(alloc, text, (image - 1) / 2)?;
    text.push("\"}]")
}

/// The manifest of an image.
pub(crate) fn manifest_text(alloc: Global, image: u32) -> Result<Output, AllocError>
    ensures { IfOk result (λ text. text ≡ manifest_text image) }
{
    let mut text = Output::new(alloc);
    text.push("{\"acKind\":\"ImageManifest\",\"acVersion\":\"0.8.0\",\"name\":\"")?;
    push_name(alloc, &mut text, image)?;
    text.push("\",\"app\":{\"exec\":[\"")?;
    push_path(alloc, &mut text, image)?;
    text.push("\"],\"user\":\"0\",\"group\":\"0\"}")?;
    push_dependencies(alloc, &mut text, image)?;
    text.push("}")?;
    Ok(text)
}

fn hex_digit(n: u8) -> u8
    requires { n < 16 }
    ensures { result ≡ hex_digit n }
{
    if n < 10 { n + b'0' } else { n + 87 }
}

// The last hex digits of a number, as many as there is room for.
fn write_digits(room: &mut [u8], number: u32)
    ensures { room.new ≡ hex_digits (length room.old) number }
{
    let mut rest = number;
    let mut place = room.len();
    'places: while place > 0 {
        place -= 1;
        room[place] = hex_digit((rest % 16) as u8);
        rest /= 16;
    }
}

/// The ID of an image.
pub(crate) fn id_text(alloc: Global, image: u32) -> Result<Vec<u8>, AllocError>
    ensures { IfOk result (λ text. text.items ≡ id_text image) }
{
    let mut digits = [0; 8];
    write_digits(&mut digits, image);
    let mut text = Vec::from_slice(alloc, b"sha512-")?;
    text.extend_from_slice(&digits)?;
    text.extend_from_slice(ZEROS.as_bytes())?;
    Ok(text)
}

/// What both files of an image hold: its number in a line.
pub(crate) fn content(alloc: Global, image: u32) -> Result<Output, AllocError>
    ensures { IfOk result (λ text. text ≡ input_content image) }
{
    let mut text = Output::new(alloc);
    text.push_number(alloc, u64::from(image))?;
    text.push("\n")?;
    Ok(text)
}

/// Where the file of an image's own stands in its bundle.
pub(crate) fn own_place(alloc: Global, image: u32) -> Result<String, AllocError>
    ensures { IfOk result (λ path. string_bytes path ≡ codes "b/rootfs" ++ own_path image) }
{
    format!(in alloc; "b/rootfs/d{image}")
}
