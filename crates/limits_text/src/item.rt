ghost use Rattle.std.specs.Prelude.{◌≡◌};
ghost use Rattle.limits_text.specs.Lines.{item_of};

// What a line of a list of limits is.
#[derive(Clone, Copy, PartialEq, Eq, Debug)]
pub enum Item {
    Nothing,
    Heading,
    Formula,
}

// What a line is: nothing where it is empty, a heading where it begins with `#`, else a formula.
impl From<&[u8]> for Item {
    ghost from_gives = { λ line item. item ≡ item_of line.now };

    fn from(line: &[u8]) -> Item {
        match line {
            [] => Item::Nothing,
            [b'#', ..] => Item::Heading,
            _ => Item::Formula,
        }
    }
}
