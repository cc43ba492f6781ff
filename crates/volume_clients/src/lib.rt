//! Code over volumes, proved from their contracts alone.
#![tactic(auto)]

ghost use Rattle.std.specs.Prelude.{◌≡◌};
ghost use Rattle.volumes.specs.Pages.{written};
ghost use Rattle.volumes.specs.Volumes.{used, unused};
ghost use Rattle.volume_clients.specs.Three.{three_joined};
ghost use Rattle.volume_clients.specs.Writes.{read_back, OthersStay};

use volumes::{Joined, Plain, Volume};

/// Writes a word of a volume and reads it back. Every other word reads as before.
pub fn write_back<V: Volume>(volume: &mut V, page: usize, word: usize, value: u32) -> Option<u32>
    ensures value { result ≡ read_back (V.Volume.words volume.old) page word value }
    ensures others { OthersStay (V.Volume.words volume.old) (V.Volume.words volume.new) page word }
{
    let _ = volume.write(page, word, value);
    volume.read(page, word)
}

/// Writes a word of three volumes, joined and joined again, and reads it back. Every other word reads as before.
pub fn write_back_in_three<V: Volume, W: Volume, X: Volume>(
    volume: &mut Joined<Joined<V, W>, X>,
    page: usize,
    word: usize,
    value: u32,
) -> Option<u32>
    ensures value { result ≡ read_back (three_joined V.Volume W.Volume X.Volume volume.old) page word value }
    ensures others { OthersStay (three_joined V.Volume W.Volume X.Volume volume.old) (three_joined V.Volume W.Volume X.Volume volume.new) page word }
{
    write_back(volume, page, word, value)
}

/// Writes a word of the plain volume over these words, and hands them back.
pub fn write_through(words: Vec<u32>, page: usize, word: usize, value: u32) -> Vec<u32>
    ensures used { used result.items ≡ written (used words.items) page word value }
    ensures unused { unused result.items ≡ unused words.items }
{
    let mut volume = Plain::new(words);
    let _ = volume.write(page, word, value);
    volume.into_words()
}
