//! Words in, samples out: a feed that takes words, a sender that writes them, signals that hold at samples or not, and bytes put together into words.
//! Each word is taken, or refused by the first check that fails it, and a refused word alters nothing. What is sent of a sample is read as
//! that sample, a signal holds exactly where its letter, `*` and `!` say, and no byte is lost, repeated or moved.

#![tactic(auto)]

mod assembler;
mod feed;
mod letter;
mod numbered;
mod reading;
mod refusal;
mod sample;
mod sender;
mod signal;

pub use assembler::Assembler;
pub use feed::{Feed, LAST_NUMBER};
pub use numbered::Numbered;
pub use refusal::Refusal;
pub use sample::Sample;
pub use sender::write_sample;
pub use signal::Signal;

#[cfg(test)]
mod tests {
    use super::*;
    use std::test::Fail;

    const FULL: u32 = 0x3FFF_FFFF;

    // Takes the words in turn, up to the first that is refused.
    fn take_all(feed: &mut Feed, words: &[u32]) -> Result<(), Refusal> {
        for word in words {
            feed.take(*word)?;
        }
        Ok(())
    }

    // The number of the refusal that the words end in.
    fn refused(feed: &mut Feed, words: &[u32]) -> Option<u8> {
        Some(take_all(feed, words).err()?.number())
    }

    #[test]
    fn each_check_of_a_word(rt: HostRuntime) {
        let cases: [(&[u32], Option<u8>); 9] = [
            (&[FULL, FULL, FULL, FULL, 3, 0x4000_0000], None),
            (&[FULL, FULL, FULL, FULL, 4], Some(3)),
            (&[0xC000_0000, 0xC000_0000], Some(1)),
            (&[0x8000_0000], Some(2)),
            (&[0x40FF_FFFF], None),
            (&[0x4100_0000], Some(4)),
            (&[0xC000_0001], Some(6)),
            (&[1, 0xC000_0000], Some(7)),
            (&[1, 0xC000_0001], Some(6)),
        ];
        for (words, number) in cases {
            assert_eq!(rt; refused(&mut Feed::new(), words), number);
        }
    }

    #[test]
    fn numbers_beyond_sixteen_bits_and_their_end(rt: HostRuntime) -> Result<(), Fail> {
        let mut feed = Feed::new();
        assert!(rt; feed.begin(0).is_err());
        assert!(rt; feed.begin(LAST_NUMBER + 1).is_err());
        feed.begin(65_535)?;
        feed.take(0x4000_0000)?;
        feed.take(0x4000_0000)?;
        let third = feed
            .take(0x4000_0001)?
            .ok_or_else(|| Fail::new("no sample"))?;
        assert_eq!(rt; third.number, 65_537);
        assert!(rt; feed.begin(1).is_err());
        let mut last = Feed::new();
        last.begin(LAST_NUMBER)?;
        assert_eq!(rt; refused(&mut last, &[0x4000_0000, 0x4000_0000]), Some(5));
        Ok(())
    }

    #[test]
    fn the_sender_and_the_makings(rt: HostRuntime) -> Result<(), Fail> {
        let mut out = [7u32; 7];
        assert_eq!(rt; write_sample(u32::MAX, 5, &mut out)?, 6);
        assert_eq!(rt; out, [FULL, FULL, FULL, FULL, 3, 0x4000_0005, 7]);
        assert_eq!(rt; write_sample(0xFFFF_FFFC, 1, &mut out)?, 5);
        assert_eq!(rt; write_sample(0, 1, &mut out)?, 1);
        assert!(rt; write_sample(0, 1 << 24, &mut out).is_err());
        assert!(rt; write_sample(1, 1, &mut out[0..1]).is_err());
        assert!(rt; Sample::new(0, 1 << 24).is_err());
        assert!(rt; Signal::letter(24).is_err());
        let x = Signal::letter(23)?.negated();
        assert!(rt; x.holds(&Sample::new(0, 1)?) && !x.holds(&Sample::new(0, 1 << 23)?));
        Ok(())
    }
}
