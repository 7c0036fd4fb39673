//! Laws of the generated texts.
ghost use Rattle.std.specs.Prelude.{◌≡◌, ℕ, Ok};
ghost use Rattle.generator.specs.Made.{made};
ghost use Rattle.scenario_text.specs.Grammar.{script_of};
ghost use Rattle.made_laws.specs.MadeScript.{made_script};

/// The text of each number is without fault, and says the scenario and the events that are written down beside it.
pub fn made_texts_are_read()
    ensures { (number : ℕ) → script_of (made number) ≡ Ok (made_script number) }
{}
