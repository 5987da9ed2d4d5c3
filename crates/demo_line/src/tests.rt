// The lines of some demos.
use crate::line::numbers_line;
use crate::numbers::demo_numbers;
use std::test::Fail;

const LINES: [(u32, &str); 3] = [
    (
        1,
        "images=1 prepared=1 ran=1 failed=0 deleted=1 left=0 entries=2\n",
    ),
    (
        5,
        "images=5 prepared=5 ran=2 failed=1 deleted=2 left=3 entries=16\n",
    ),
    (
        100,
        "images=100 prepared=100 ran=34 failed=17 deleted=34 left=66 entries=680\n",
    ),
];

#[test]
fn a_demo_has_its_line(rt: HostRuntime) -> Result<(), Fail> {
    for (count, wanted) in LINES {
        let line = numbers_line(rt.alloc(), demo_numbers(count))?;
        assert!(rt; line.as_slice() == wanted.as_bytes());
    }
    Ok(())
}
