// Tests of reading, writing and the rules on large and odd inputs, of the complex, of the stores and of the reduction.
#![tactic(auto)]

#[cfg(test)]
mod fillings;
#[cfg(test)]
mod halls;
#[cfg(test)]
mod reductions;

#[cfg(test)]
mod tests {
    use refusal::Refusal;
    use std::alloc::Global;
    use std::array::from_fn;
    use std::test::Fail;
    use survey::neighbours::Neighbours;
    use survey::plan::Survey;
    use text::read::read_survey;
    use text::write::write_survey;

    // All of `count` sensors linked, and all on the fence.
    fn complete(count: u16) -> Result<Survey, Refusal> {
        if count > 64 {
            return Err(Refusal::SensorCount);
        }
        let mut neighbours = Neighbours::new(count)?;
        for x in 1..=count {
            for y in (1..=count).filter(|y| *y != x) {
                neighbours.add(x, y)?;
            }
        }
        let sensors: [u16; 64] = from_fn(|i| i as u16 + 1);
        Survey::new(neighbours, &sensors[..count as usize])
    }

    #[test]
    fn nineteen_are_read_and_twenty_have_too_many_triangles(rt: HostRuntime) -> Result<(), Fail> {
        assert_eq!(rt; complete(19)?.triangle_count(), 969);
        assert_eq!(rt; refused(complete(20)), Some(8));
        assert_eq!(rt; refused(complete(33)), Some(7));
        Ok(())
    }

    // The number of the refusal, if it is one.
    fn refused<T: Drop>(answer: Result<T, Refusal>) -> Option<u8> {
        answer.err().map(Refusal::number)
    }

    #[test]
    fn any_bytes_are_answered(rt: HostRuntime) -> Result<(), Fail> {
        assert_eq!(rt; refused(read_survey(b"")), Some(1));
        let mut noise = vec![in rt.alloc(); 0u8; 1048576]?;
        let mut state = 1u32;
        for b in noise.iter_mut() {
            state = state.wrapping_mul(1664525).wrapping_add(1013904223);
            *b = (state >> 24) as u8;
        }
        assert_eq!(rt; refused(read_survey(&noise)), Some(1));
        Ok(())
    }

    // A line of many numbers is read to its end before it is judged.
    #[test]
    fn long_lines_are_judged_whole(rt: HostRuntime) -> Result<(), Fail> {
        let heap: Global = rt.alloc();
        let mut bytes = b"S   3\nN   1".to_vec(heap)?;
        for _ in 0..100000u32 {
            bytes.extend_from_slice(b"   2")?;
        }
        assert_eq!(rt; refused(read_survey(&bytes)), Some(1));
        bytes.extend_from_slice(b";\n")?;
        assert_eq!(rt; refused(read_survey(&bytes)), Some(4));
        Ok(())
    }

    #[test]
    fn a_text_is_written_as_it_was_read(rt: HostRuntime) -> Result<(), Fail> {
        let text = b"S   3\nN   1   2   3;\nN   2   1   3;\nN   3   1   2;\nF   3   2   1;\nmore";
        let (survey, place) = read_survey(text)?;
        assert_eq!(rt; place, 66);
        let mut out = [0u8; 70];
        assert_eq!(rt; write_survey(&survey, &mut out)?, 66);
        assert_eq!(rt; &out[0..66], &text[0..66]);
        assert_eq!(rt; out[66], 0);
        Ok(())
    }
}
