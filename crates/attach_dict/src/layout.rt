// The words of a pair's block.
ghost use Rattle.std.specs.Prelude.{◌≡◌, ◌+◌, ◌≤◌, length, take};
ghost use Rattle.attach_dict.specs.Calls.{block_words};
ghost use Rattle.attach_dict.specs.Dict.{stage, head_words, most_values, bytes_for};

/// The root whose block is made ready.
pub(crate) const STAGE: u32 = 0;

/// How many words a block has before its value: the key, the number and the count.
pub(crate) const HEAD_WORDS: usize = 3;

/// The most words of a value: a block is written in one call, which takes 512 words.
pub(crate) const MOST_VALUES: u64 = 509;

/// How many bytes a pair takes whose value has so many words.
pub(crate) fn bytes_for(count: u32) -> u64
    requires { count ≤ most_values }
    ensures { result ≡ bytes_for count }
{
    24 + 8 * u64::from(count)
}

/// Lays the words of a pair's block out at the front of a row of 512.
pub(crate) fn lay_out(block: &mut [u64], key: u64, number: u64, value: &[u64])
    requires wide { length block.old ≡ 512 }
    requires few { length value.now ≤ most_values }
    ensures { take (head_words + length value.now) block.new ≡ block_words key number value.now }
{
    block[0] = key;
    block[1] = number;
    block[2] = value.len() as u64;
    block[HEAD_WORDS..HEAD_WORDS + value.len()].copy_from_slice(value);
}
