//! Tests of the layer of event messages, on values from the standards.
#![tactic(auto)]

#[cfg(test)]
mod tests {
    use digest::digest;
    use forms::order::compare;
    use message::event::Event;
    use packets::TakenUp;
    use reading::feeds::Feed;
    use reading::packet::PacketFeed;
    use reading::spool::SpoolFeed;
    use reading::spool::acceptance::is_accepted;
    use refusal::Fault;
    use std::cmp::Ordering;
    use std::test::Fail;
    use writing::request::write_packet;
    use writing::spool::write_spool;

    // The spool form of the Media_Alive, from the header's layout.
    const ALIVE: [u8; 77] =
        *b"\x01\x00\x04\x4b\xfa\x44\x73   326311+030000\x00\x00\x00\x09\x00\x14\x00\x01   326311+030000\x00\x00\x00\x0020100524121843.407\x00\x00\x00\x08\x80\x00\x00\x00";

    #[test]
    fn the_media_alive_has_its_form(rt: HostRuntime) {
        let mut out = [0xee; 80];
        assert!(rt; write_spool(&Event::media_alive(), &mut out) == Ok(77));
        assert!(rt; out[0..77] == ALIVE[0..77]);
        assert!(rt; out[77] == 0xee);
    }

    #[test]
    fn a_buffer_of_76_bytes_is_refused_and_kept(rt: HostRuntime) {
        let mut out = [0xee; 76];
        assert!(rt; write_spool(&Event::media_alive(), &mut out) == Err(Fault::OutputTooSmall));
        assert!(rt; out == [0xee; 76]);
    }

    #[test]
    fn a_cut_spool_is_not_accepted(rt: HostRuntime) {
        assert!(rt; is_accepted(&ALIVE));
        assert!(rt; !is_accepted(&ALIVE[0..76]));
        let mut place = Event::media_alive();
        let answer = SpoolFeed::new(&ALIVE[0..76]).next(&mut place);
        assert!(rt; answer == Err(Fault::CutItem { at: 0 }));
    }

    #[test]
    fn a_written_packet_is_taken_up(rt: HostRuntime) -> Result<(), Fail> {
        let mut out = [0; 400];
        let event = Event::media_alive();
        assert!(rt;
            write_packet(&event, 7, &[10, 0, 0, 1], b"sixteen byte key", &mut out) == Ok(142)
        );
        let mut place = Event::media_alive();
        match TakenUp::take_up(&out) {
            Ok(packet) => {
                let answer = PacketFeed::read_out(packet).next(&mut place);
                assert!(rt; answer == Ok(Some(58)));
                assert!(rt; compare(&event, &place) == Ordering::Equal);
                Ok(())
            }
            Err(_) => Err(Fail::new("refused")),
        }
    }

    #[test]
    fn the_digest_of_abc(rt: HostRuntime) {
        let mut out = [0; 16];
        digest(b"abc", &mut out);
        assert!(rt; out == *b"\x90\x01\x50\x98\x3c\xd2\x4f\xb0\xd6\x96\x3f\x7d\x28\xe1\x7f\x72");
    }
}
