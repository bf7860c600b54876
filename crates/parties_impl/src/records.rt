// A party's part of a shared record: the lines of its calls before 8, its vertices taken out and put back.
ghost use Rattle.buffers.specs.internal.Numbers.{number_of};
ghost use Rattle.std.specs.Prelude.{cond, ◌≡◌, length};
ghost use Rattle.buffers.specs.Refusals.{first_fitting};
ghost use Rattle.parties.specs.PartyLines.{outsider};
ghost use Rattle.parties.specs.Masks.{in_party, masked};
ghost use Rattle.words.specs.Bits.{bit, word_of};
ghost use Rattle.parties_impl.specs.internal.BeforeEight.{PutBack, before_eight};
ghost use Rattle.operations.specs.Used.{used_record};

use crate::masks::{crosses, mask, mask_used, merge, merge_used, own_word};
use buffers::refusals::Refusal;
use operations_checks::used_refusal;
use words::bit_at;

// Whether a qubit of the record is in the other party: bit q of the word is qubit q's party.
pub fn outside(n: u64, word: u64, party: u8, qubit: u64) -> bool
    ensures { result ≡ outsider (in_party word party) n qubit }
{
    (qubit < n) & (bit_at(word, qubit) != (party == 1))
}

// The first line before 8 that holds; `six`: line 6 holds of a further argument; `other`: the call names
// a qubit of the other party.
pub fn party_refusal(
    n: u64,
    word: u64,
    party: u8,
    neighbours: &[u64],
    codes: &[u8],
    used: u64,
    six: bool,
    other: bool,
) -> Result<(), Refusal>
    ensures { number_of result ≡ first_fitting (before_eight word party (used_record n neighbours.now
        codes.now used) six other) }
{
    if n != 64 {
        return Err(Refusal::Count);
    }
    used_refusal(n, neighbours, codes, used, 0, false, six | (1 < party))?;
    if crosses(word, neighbours) | other {
        Err(Refusal::OtherGroup)
    } else {
        Ok(())
    }
}

// Copies the party's vertices, the others alone in +Z; answers the party's used qubits.
pub fn take_party(
    word: u64,
    party: u8,
    neighbours: &[u64],
    codes: &[u8],
    used: u64,
    words: &mut [u64],
    bytes: &mut [u8],
) -> u64
    requires neighbours_len { (length neighbours.now ≡ 64) × (length codes.now ≡ 64) }
    requires words_len { (length words.old ≡ 64) × (length bytes.old ≡ 64) }
    ensures { used_record 64 words.new bytes.new result ≡ masked (in_party word party)
        (used_record 64 neighbours.now codes.now used) }
{
    let own = own_word(word, party);
    mask(own, neighbours, codes, words, bytes);
    mask_used(own, used)
}

// Puts the party's vertices of a copy into the record; the others stay.
pub fn put_party(
    word: u64,
    party: u8,
    words: &[u64],
    bytes: &[u8],
    neighbours: &mut [u64],
    codes: &mut [u8],
)
    requires words_len { (length words.now ≡ 64) × (length bytes.now ≡ 64) }
    requires neighbours_len { (length neighbours.old ≡ 64) × (length codes.old ≡ 64) }
    ensures { PutBack (in_party word party) words.now bytes.now
        neighbours.old codes.old neighbours.new codes.new }
{
    let own = own_word(word, party);
    merge(own, words, bytes, neighbours, codes);
}

// The used qubits `new` of the party, and `used` of the other.
pub fn put_used(word: u64, party: u8, new: u64, used: u64) -> u64
    ensures { result ≡ word_of 64 (λ q. cond (in_party word party q) (bit new q) (bit used q)) }
{
    merge_used(own_word(word, party), new, used)
}
