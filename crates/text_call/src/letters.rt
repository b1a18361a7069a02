// The letters of marks and of modes, and the numbers that they stand for.
ghost use Rattle.std.specs.Prelude.{◌≡◌, [], ◌∷◌};
ghost use Rattle.text_call.specs.Letters.{mark_of_run, mode_of_run};

// A number that no mark has.
const NO_MARK: u32 = 3;

// A number that no mode has.
const NO_MODE: u32 = 5;

fn mark_of_letter(letter: u8) -> u32
    ensures { result ≡ mark_of_run (letter ∷ []) }
{
    match letter as char {
        'o' => 0,
        'i' => 1,
        't' => 2,
        _ => NO_MARK,
    }
}

// The number of the mark that a run is the letter of; any other run names none.
pub fn mark_of_run(run: &[u8]) -> u32
    ensures { result ≡ mark_of_run run.now }
{
    match run {
        [letter] => mark_of_letter(*letter),
        _ => NO_MARK,
    }
}

fn mode_of_letter(letter: u8) -> u32
    ensures { result ≡ mode_of_run (letter ∷ []) }
{
    match letter as char {
        'N' => 0,
        'D' => 1,
        'U' => 2,
        'Z' => 3,
        'A' => 4,
        _ => NO_MODE,
    }
}

// The number of the mode that a run is the letter of; any other run names none.
pub fn mode_of_run(run: &[u8]) -> u32
    ensures { result ≡ mode_of_run run.now }
{
    match run {
        [letter] => mode_of_letter(*letter),
        _ => NO_MODE,
    }
}
