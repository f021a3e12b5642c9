//! What connects, what is refused, and what an emission calls.
use gd_model::{Shared, Target};
use gd_signals::Connections;
use gd_syntax::{Text, TextFault};
use slot_arena::Handle;
use std::alloc::Global;
use std::test::Fail;

fn text(alloc: Global, chars: &str) -> Result<Text, TextFault> {
    Text::from_utf8(alloc, chars.as_bytes())
}

fn on_object(alloc: Global, serial: u64, name: &str) -> Result<Shared<Target>, Fail> {
    let target = Target {
        object: Some(Handle { index: 0, serial }),
        class: 0,
        name: text(alloc, name)?,
    };
    Ok(Shared::new(alloc, target)?)
}

#[test]
fn connects_once(rt: HostRuntime) -> Result<(), Fail> {
    let alloc = rt.alloc();
    let signal = text(alloc, "hit")?;
    let mut all = Connections::new(alloc);
    // the object, the flags, the answer
    let calls = [
        (1, 0, 0),
        (1, 0, 31),
        (1, 4, 31),
        (2, 2, 31),
        (2, 4, 0),
        (2, 0, 31),
        (3, -1, 31),
    ];
    for (object, flags, answer) in calls {
        let to = on_object(alloc, object, "f")?;
        assert_eq!(rt;
            all.connect(9, &signal, to, flags)?,
            answer,
            "{object} {flags}"
        );
    }
    assert_eq!(rt; all.connect(8, &signal, on_object(alloc, 1, "f")?, 0)?, 0);
    assert!(rt; all.is_connected(9, &signal, on_object(alloc, 1, "f")?.get()));
    assert!(rt; !all.is_connected(9, &signal, on_object(alloc, 1, "g")?.get()));
    Ok(())
}

#[test]
fn emits_in_order(rt: HostRuntime) -> Result<(), Fail> {
    let alloc = rt.alloc();
    let signal = text(alloc, "hit")?;
    let mut all = Connections::new(alloc);
    for (object, flags) in [(1, 4), (2, 0), (3, 0)] {
        let to = on_object(alloc, object, "f")?;
        assert_eq!(rt; all.connect(9, &signal, to, flags)?, 0);
    }
    assert!(rt; all.disconnect(9, &signal, on_object(alloc, 2, "f")?.get()));
    assert!(rt; !all.disconnect(9, &signal, on_object(alloc, 2, "f")?.get()));
    let targets = all.begin_emit(alloc, 9, &signal)?;
    for ((target, one_shot), (serial, once)) in targets.iter().zip([(1, true), (3, false)]) {
        assert_eq!(rt; target.get().object.map(|h| h.serial), Some(serial));
        assert_eq!(rt; *one_shot, once);
    }
    assert_eq!(rt; targets.len(), 2);
    all.forget(9);
    assert_eq!(rt; all.begin_emit(alloc, 9, &signal)?.len(), 0);
    Ok(())
}
