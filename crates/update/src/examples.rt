// The worked examples, computed from the definitions that the contracts cite.
ghost use Rattle.update.specs.Examples.{Examples};

// A text of a value at an address. Its contract is the joint statement of the worked examples.
pub fn worked_example() -> [u8; 12]
    ensures { Examples result }
{
    [
        0x0b, 0x00, 0x07, 0x02, 0x00, 0x00, 0x00, 0x05, 0x01, 0x02, 0x32, 0x37,
    ]
}
