// The characters of a survey's text, told apart one by one.
ghost use Rattle.std.specs.Prelude.{◌≡◌};
ghost use Rattle.text.specs.Symbols.{symbol_of};

#[derive(Clone, Copy, Debug, PartialEq, Eq)]
pub enum Symbol {
    // S, before the number of sensors
    Survey,
    // N, before a sensor and its neighbours
    Sensor,
    // F, before the fence
    Fence,
    // ;, after a list
    End,
    Space,
    LineEnd,
    // a digit and its value
    Digit(u16),
    Other,
}

// What a character is in a survey's text. Each character is a literal case, as the rules of the project ask.
pub fn classify(c: char) -> Symbol
    ensures { result ≡ symbol_of c }
{
    match c {
        'S' => Symbol::Survey,
        'N' => Symbol::Sensor,
        'F' => Symbol::Fence,
        ';' => Symbol::End,
        ' ' => Symbol::Space,
        '\n' => Symbol::LineEnd,
        '0' => Symbol::Digit(0),
        '1' => Symbol::Digit(1),
        '2' => Symbol::Digit(2),
        '3' => Symbol::Digit(3),
        '4' => Symbol::Digit(4),
        '5' => Symbol::Digit(5),
        '6' => Symbol::Digit(6),
        '7' => Symbol::Digit(7),
        '8' => Symbol::Digit(8),
        '9' => Symbol::Digit(9),
        _ => Symbol::Other,
    }
}
