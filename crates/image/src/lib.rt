// An image from a site: the mark RCK, a version in two bytes, the keys in one, the length of a turn in two,
// the number of words in two, and then the words in three bytes each. Every number has its highest byte first.
#![tactic(auto)]

ghost use Rattle.image.specs.Image.{Sound, content, encoded, reading};
ghost use Rattle.std.specs.Prelude.{◌≡◌, IfOk, Ok, Err, MatchResult};

use answers::Refusal;

const MARK: [u8; 3] = *b"RCK";

const VERSION: u16 = 1;

const LONGEST_TURN: u16 = 10_000;

const HIGHEST_KEYS: u8 = 63;

const MOST_WORDS: u16 = 4_096;

const WORD_BYTES: usize = 3;

#[derive(Clone, Copy, PartialEq, Eq, Debug)]
pub struct Image<'a> {
    pub keys: u8,
    pub length: u16,
    // three bytes for each word, the highest first
    pub words: &'a [u8],
}

impl<'a> Image<'a> {
    // The first check that fails, in the order below, is the refusal.
    pub fn read(bytes: &'a [u8]) -> Result<Image<'a>, Refusal>
        ensures answer { MatchResult result (λ i. reading bytes.now ≡ Ok (content i.keys i.length i.words.now)) (λ e. reading bytes.now ≡ Err e) }
        ensures limits { IfOk result (λ i. Sound bytes.now i.keys i.length i.words.now) }
        ensures rebuilt { IfOk result (λ i. bytes.now ≡ encoded i.keys i.length i.words.now) }
    {
        // mark, version, keys, length of a turn and count of words
        let [m0, m1, m2, v0, v1, keys, l0, l1, c0, c1, words @ ..] = bytes else {
            return Err(Refusal::ImageShort);
        };
        if [*m0, *m1, *m2] != MARK {
            return Err(Refusal::ImageMark);
        }
        if u16::from_be_bytes([*v0, *v1]) != VERSION {
            return Err(Refusal::ImageVersion);
        }
        let length = u16::from_be_bytes([*l0, *l1]);
        if length == 0 || length > LONGEST_TURN {
            return Err(Refusal::Length);
        }
        if *keys > HIGHEST_KEYS {
            return Err(Refusal::Keys);
        }
        let count = u16::from_be_bytes([*c0, *c1]);
        if count > MOST_WORDS || words.len() != WORD_BYTES * usize::from(count) {
            return Err(Refusal::ImageLength);
        }
        Ok(Image {
            keys: *keys,
            length,
            words,
        })
    }
}
