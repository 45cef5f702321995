// The plain form of the network and the journal, for statements: definitions and laws, in specs/ and proofs/. Its one function says how
// many words a record has, by the definition that every other part takes it from.
#![tactic(auto)]

ghost use Rattle.std.specs.Prelude.{◌≡◌};
ghost use Rattle.nights.specs.Record.{record_size};

pub fn record_size() -> usize
    ensures { result ≡ record_size }
{
    8
}
