// What is drawn for the commands of the demo.
ghost use Rattle.std.specs.Prelude.{◌≡◌};
ghost use Rattle.demo_inputs.specs.Draws.{drawn, draw_of, pod_draw, command_draw};

use dir_model::{Draw, PodId};

fn drawn(first: u8, last: u32) -> [u8; 16]
    ensures { result ≡ drawn first last }
{
    let mut bytes = [0; 16];
    bytes[0] = first;
    bytes[12..].copy_from_slice(&last.to_be_bytes());
    bytes
}

fn draw_of(bytes: [u8; 16]) -> Draw
    ensures { result ≡ draw_of bytes }
{
    Draw {
        uuid: PodId { bytes },
        token: bytes,
        key: [0; 64],
    }
}

/// What is drawn for the making of a pod: bytes that end with its number.
pub fn pod_draw(pod: u32) -> Draw
    ensures { result ≡ pod_draw pod }
{
    draw_of(drawn(0, pod))
}

/// What is drawn for another command, of those counted from 0: bytes that begin with 1 and end with that number.
pub fn command_draw(number: u32) -> Draw
    ensures { result ≡ command_draw number }
{
    draw_of(drawn(1, number))
}
