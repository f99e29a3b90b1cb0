use avm_state::{Call, Ledger};
use puya_base::{Blob, Blobs, List, Memory, StepFault, Value};
use std::alloc::Global;
use std::test::Fail;

// What a step answers, as a number: the number that it read, or one of these, which no row reads.
const DONE: u64 = 100_001;

const FAILS: u64 = 100_002;

const MEMORY: u64 = 100_003;

const NONE: u64 = 100_004;

const TRUE: u64 = 100_005;

const FALSE: u64 = 100_006;

const OTHER: u64 = 100_007;

fn fault(why: StepFault) -> u64 {
    match why {
        StepFault::Fails => FAILS,
        StepFault::Memory => MEMORY,
    }
}

fn done(answer: Result<(), StepFault>) -> u64 {
    match answer {
        Ok(()) => DONE,
        Err(why) => fault(why),
    }
}

fn truth(answer: Result<bool, StepFault>) -> u64 {
    match answer {
        Ok(true) => TRUE,
        Ok(false) => FALSE,
        Err(why) => fault(why),
    }
}

fn number(answer: Result<Option<Value>, StepFault>) -> u64 {
    match answer {
        Ok(Some(Value::Int(n))) => n,
        Ok(Some(Value::Bytes(_))) => OTHER,
        Ok(None) => NONE,
        Err(why) => fault(why),
    }
}

fn same(bytes: &[u8], want: &[u8]) -> u64 {
    if bytes == want { TRUE } else { FALSE }
}

fn filled(alloc: Global, byte: u8) -> Result<Blob, Memory> {
    let bytes = vec![in alloc; byte; 32]?;
    Ok(Blob::from_vec(bytes))
}

fn one(alloc: Global, bytes: &[u8]) -> Result<Blobs, Memory> {
    let mut list = List::new(alloc);
    list.push(Blob::from_slice(alloc, bytes)?)?;
    Ok(list)
}

/// A call of sender 1, with one listed account of 32 twos and the box name `b`.
fn call(alloc: Global, on_completion: u8) -> Result<Call, Memory> {
    let sender = filled(alloc, 1)?;
    let creator = filled(alloc, 1)?;
    let accounts = one(alloc, &[2; 32])?;
    let boxes = one(alloc, b"b")?;
    Ok(Call {
        application: 1,
        creating: false,
        on_completion,
        args: List::new(alloc),
        sender,
        fee: 1000,
        note: Blob::new(alloc),
        accounts,
        boxes,
        round: 1,
        timestamp: 1,
        creator,
        budget: 700,
    })
}

/// A ledger and a call on it, whose steps are on the key `k` and the box `b`.
#[derive(Drop)]
struct Scene {
    alloc: Global,
    call: Call,
    ledger: Ledger,
}

impl Scene {
    fn new(alloc: Global, on_completion: u8) -> Result<Box<Scene>, Memory> {
        let call = call(alloc, on_completion)?;
        let scene = Scene {
            alloc,
            call,
            ledger: Ledger::empty(alloc),
        };
        Ok(Box::new(alloc, scene)?)
    }

    fn put_local(&mut self, account: u64, n: u64) -> u64 {
        done(
            self.ledger
                .local_put(&self.call, &Value::Int(account), b"k", &Value::Int(n)),
        )
    }

    fn local(&self, account: u64) -> u64 {
        number(
            self.ledger
                .local_get(self.alloc, &self.call, &Value::Int(account), b"k"),
        )
    }

    fn local_of_address(&self, byte: u8) -> Result<u64, Memory> {
        let who = Value::Bytes(filled(self.alloc, byte)?);
        Ok(number(self.ledger.local_get(self.alloc, &self.call, &who, b"k")))
    }

    fn delete_local(&mut self, account: u64) -> u64 {
        done(
            self.ledger
                .local_del(&self.call, &Value::Int(account), b"k"),
        )
    }

    fn create(&mut self, name: &str, size: u64) -> u64 {
        truth(self.ledger.box_create(&self.call, name.as_bytes(), size))
    }

    fn length(&self) -> u64 {
        match self.ledger.box_len(&self.call, b"b") {
            Ok(Some(n)) => n,
            Ok(None) => NONE,
            Err(why) => fault(why),
        }
    }

    fn whole(&self, want: &[u8]) -> u64 {
        match self.ledger.box_get(self.alloc, &self.call, b"b") {
            Ok(Some(bytes)) => same(bytes.as_slice(), want),
            Ok(None) => NONE,
            Err(why) => fault(why),
        }
    }

    fn part(&self, start: u64, len: u64, want: &[u8]) -> u64 {
        match self
            .ledger
            .box_extract(self.alloc, &self.call, b"b", start, len)
        {
            Ok(bytes) => same(bytes.as_slice(), want),
            Err(why) => fault(why),
        }
    }

    fn replace(&mut self, start: u64, part: &[u8]) -> u64 {
        done(self.ledger.box_replace(&self.call, b"b", start, part))
    }

    fn put(&mut self, value: &[u8]) -> u64 {
        done(self.ledger.box_put(&self.call, b"b", value))
    }

    fn delete(&mut self) -> u64 {
        truth(self.ledger.box_del(&self.call, b"b"))
    }
}

/// What the sender's steps on a local value answer.
fn sender_steps(scene: &mut Scene) -> Result<[u64; 6], Memory> {
    let put_before = scene.put_local(0, 5);
    let read_before = scene.local(0);
    scene.ledger.opt_in(&[1; 32])?;
    Ok([
        put_before,
        read_before,
        scene.put_local(0, 5),
        scene.local(0),
        scene.delete_local(0),
        scene.local(0),
    ])
}

#[test]
fn an_opted_sender_has_local_values(rt: HostRuntime) -> Result<(), Fail> {
    let mut scene = Scene::new(rt.alloc(), 0)?;
    assert!(rt; sender_steps(&mut scene)? == [FAILS, FAILS, DONE, 5, DONE, NONE]);
    Ok(())
}

/// What is read of accounts 0, 1 and 2, and of the addresses 1, 2 and 3.
fn accounts(scene: &Scene) -> Result<[u64; 6], Memory> {
    Ok([
        scene.local(0),
        scene.local(1),
        scene.local(2),
        scene.local_of_address(1)?,
        scene.local_of_address(2)?,
        scene.local_of_address(3)?,
    ])
}

#[test]
fn accounts_have_numbers_and_addresses(rt: HostRuntime) -> Result<(), Fail> {
    let mut scene = Scene::new(rt.alloc(), 0)?;
    scene.ledger.opt_in(&[1; 32])?;
    assert!(rt; scene.put_local(0, 5) == DONE);
    assert!(rt; accounts(&scene)? == [5, FAILS, FAILS, 5, FAILS, FAILS]);
    scene.ledger.opt_in(&[2; 32])?;
    assert!(rt; scene.put_local(1, 6) == DONE);
    assert!(rt; accounts(&scene)? == [5, 6, FAILS, 5, 6, FAILS]);
    Ok(())
}

fn only_local_is(ledger: &Ledger, account: &[u8], n: u64) -> bool {
    ledger.local_count() == 1
        && ledger.local_account(0) == account
        && ledger.local_key(0) == b"k".as_slice()
        && *ledger.local_value(0) == Value::Int(n)
}

fn only_box_is(ledger: &Ledger, name: &[u8], bytes: &[u8]) -> bool {
    ledger.box_count() == 1 && ledger.box_name(0) == name && ledger.box_bytes(0) == bytes
}

/// What setting a local value and boxes without a call answers.
fn unlisted_steps(ledger: &mut Ledger) -> Result<[u64; 4], Memory> {
    let before = done(ledger.set_local(&[7; 32], b"k", &Value::Int(5)));
    ledger.opt_in(&[7; 32])?;
    Ok([
        before,
        done(ledger.set_local(&[7; 32], b"k", &Value::Int(5))),
        done(ledger.set_box(b"", b"abc")),
        done(ledger.set_box(b"unlisted", b"abc")),
    ])
}

#[test]
fn values_that_no_call_lists_are_read(rt: HostRuntime) -> Result<(), Fail> {
    let mut scene = Scene::new(rt.alloc(), 0)?;
    assert!(rt; unlisted_steps(&mut scene.ledger)? == [FAILS, DONE, FAILS, DONE]);
    assert!(rt; only_local_is(&scene.ledger, &[7; 32], 5));
    assert!(rt; only_box_is(&scene.ledger, b"unlisted", b"abc"));
    Ok(())
}

/// What the box is before it is made, what making it answers, and its length.
fn making(scene: &mut Scene) -> [u64; 8] {
    [
        scene.length(),
        scene.whole(b""),
        scene.part(0, 0, b""),
        scene.create("b", 4),
        scene.create("b", 4),
        scene.create("b", 5),
        scene.create("c", 4),
        scene.length(),
    ]
}

/// What writing into a box of 4 zeros answers, and what is read then.
fn changing(scene: &mut Scene) -> [u64; 6] {
    [
        scene.replace(1, &[7, 8]),
        scene.replace(3, &[7, 8]),
        scene.replace(u64::MAX, &[7, 8]),
        scene.part(1, 3, &[7, 8, 0]),
        scene.part(u64::MAX, 2, b""),
        scene.whole(&[0, 7, 8, 0]),
    ]
}

/// What setting a box of 4 bytes and removing it answers.
fn removing(scene: &mut Scene) -> [u64; 5] {
    [
        scene.put(&[1, 2, 3]),
        scene.put(&[1, 2, 3, 4]),
        scene.whole(&[1, 2, 3, 4]),
        scene.delete(),
        scene.delete(),
    ]
}

#[test]
fn a_box_is_made_changed_and_removed(rt: HostRuntime) -> Result<(), Fail> {
    let mut scene = Scene::new(rt.alloc(), 0)?;
    assert!(rt; making(&mut scene) == [NONE, NONE, FAILS, TRUE, FALSE, FAILS, FAILS, 4]);
    assert!(rt; changing(&mut scene) == [DONE, FAILS, FAILS, TRUE, FAILS, TRUE]);
    assert!(rt; removing(&mut scene) == [FAILS, DONE, TRUE, TRUE, FALSE]);
    Ok(())
}

/// What each of the seven steps on a box answers.
fn each_box_step(scene: &mut Scene) -> [u64; 7] {
    [
        scene.create("b", 2),
        scene.whole(&[1, 2]),
        scene.put(&[3, 4]),
        scene.delete(),
        scene.length(),
        scene.part(0, 1, &[1]),
        scene.replace(0, &[3]),
    ]
}

#[test]
fn a_clear_program_touches_no_box(rt: HostRuntime) -> Result<(), Fail> {
    let mut scene = Scene::new(rt.alloc(), 3)?;
    assert!(rt; done(scene.ledger.set_box(b"b", &[1, 2])) == DONE);
    assert!(rt; each_box_step(&mut scene) == [FAILS; 7]);
    Ok(())
}

/// What making and setting boxes of so many bytes answers.
fn box_of(scene: &mut Scene, size: usize) -> Result<[u64; 2], Memory> {
    let bytes = vec![in scene.alloc; 1u8; size]?;
    Ok([
        scene.create("b", size as u64),
        done(scene.ledger.set_box(b"other", bytes.as_slice())),
    ])
}

#[test]
fn a_box_has_32768_bytes_at_most(rt: HostRuntime) -> Result<(), Fail> {
    let mut scene = Scene::new(rt.alloc(), 0)?;
    assert!(rt; box_of(&mut scene, 32769)? == [FAILS, FAILS]);
    assert!(rt; box_of(&mut scene, 32768)? == [TRUE, DONE]);
    Ok(())
}

fn put_global(ledger: &mut Ledger, key: &str, n: u64) -> u64 {
    done(ledger.global_put(key.as_bytes(), &Value::Int(n)))
}

fn global(ledger: &Ledger, alloc: Global, key: &str) -> u64 {
    number(ledger.global_get(alloc, key.as_bytes()))
}

fn global_key_is(ledger: &Ledger, i: usize, key: &str) -> bool {
    i < ledger.global_count() && ledger.global_key(i) == key.as_bytes()
}

fn first_global_is(ledger: &Ledger, n: u64) -> bool {
    ledger.global_count() > 0 && *ledger.global_value(0) == Value::Int(n)
}

/// What putting five global values answers.
fn global_puts(ledger: &mut Ledger) -> [u64; 5] {
    [
        put_global(ledger, "b", 2),
        put_global(ledger, "aa", 1),
        put_global(ledger, "", 3),
        put_global(ledger, "a", 7),
        put_global(ledger, "b", 4),
    ]
}

fn are_global_keys_in_order(ledger: &Ledger) -> bool {
    ledger.global_count() == 3
        && global_key_is(ledger, 0, "")
        && global_key_is(ledger, 1, "a")
        && global_key_is(ledger, 2, "b")
}

#[test]
fn global_values_stand_in_byte_order(rt: HostRuntime) -> Result<(), Fail> {
    let mut scene = Scene::new(rt.alloc(), 0)?;
    assert!(rt; global_puts(&mut scene.ledger) == [DONE; 5]);
    scene.ledger.global_del(b"aa");
    assert!(rt; global(&scene.ledger, rt.alloc(), "aa") == NONE);
    assert!(rt; global(&scene.ledger, rt.alloc(), "b") == 4);
    assert!(rt; are_global_keys_in_order(&scene.ledger));
    assert!(rt; first_global_is(&scene.ledger, 3));
    Ok(())
}

/// What putting a number under a key of so many bytes answers.
fn put_key(ledger: &mut Ledger, alloc: Global, key: usize) -> Result<u64, Memory> {
    let key = vec![in alloc; 1u8; key]?;
    Ok(done(ledger.global_put(key.as_slice(), &Value::Int(1))))
}

/// What putting so many bytes under a key of so many bytes answers.
fn put_pair(ledger: &mut Ledger, alloc: Global, key: usize, value: usize) -> Result<u64, Memory> {
    let key = vec![in alloc; 1u8; key]?;
    let value = Value::Bytes(Blob::from_vec(vec![in alloc; 1u8; value]?));
    Ok(done(ledger.global_put(key.as_slice(), &value)))
}

/// What global values answer at the limits of a key, 64 bytes, and of key and bytes together, 128.
fn limits(ledger: &mut Ledger, alloc: Global) -> Result<[u64; 6], Memory> {
    Ok([
        put_key(ledger, alloc, 65)?,
        put_key(ledger, alloc, 64)?,
        put_pair(ledger, alloc, 64, 65)?,
        put_pair(ledger, alloc, 64, 64)?,
        put_pair(ledger, alloc, 0, 129)?,
        put_pair(ledger, alloc, 0, 128)?,
    ])
}

#[test]
fn keys_and_pairs_have_limits(rt: HostRuntime) -> Result<(), Fail> {
    let mut scene = Scene::new(rt.alloc(), 0)?;
    assert!(rt; limits(&mut scene.ledger, rt.alloc())? == [FAILS, DONE, FAILS, DONE, FAILS, DONE]);
    Ok(())
}

fn log_is(ledger: &Ledger, i: usize, bytes: &[u8]) -> bool {
    i < ledger.log_count() && ledger.log(i) == bytes
}

/// Whether 32 logs of one byte are taken.
fn takes_32_logs(ledger: &mut Ledger) -> bool {
    for i in 0..32 {
        if ledger.add_log(&[i]).is_err() {
            return false;
        }
    }
    true
}

#[test]
fn a_call_has_32_logs_at_most(rt: HostRuntime) -> Result<(), Fail> {
    let mut scene = Scene::new(rt.alloc(), 0)?;
    assert!(rt; takes_32_logs(&mut scene.ledger));
    assert!(rt; done(scene.ledger.add_log(&[])) == FAILS);
    assert!(rt; scene.ledger.log_count() == 32);
    assert!(rt; log_is(&scene.ledger, 31, &[31]));
    Ok(())
}

/// What a log of so many bytes answers.
fn log_of(scene: &mut Scene, size: usize) -> Result<u64, Memory> {
    let bytes = vec![in scene.alloc; 1u8; size]?;
    Ok(done(scene.ledger.add_log(bytes.as_slice())))
}

#[test]
fn logs_have_1024_bytes_at_most(rt: HostRuntime) -> Result<(), Fail> {
    let mut scene = Scene::new(rt.alloc(), 0)?;
    assert!(rt; log_of(&mut scene, 1025)? == FAILS);
    assert!(rt; log_of(&mut scene, 1000)? == DONE);
    assert!(rt; log_of(&mut scene, 25)? == FAILS);
    assert!(rt; log_of(&mut scene, 24)? == DONE);
    Ok(())
}

/// Makes one entry of each kind.
fn fill(ledger: &mut Ledger) -> Result<(), StepFault> {
    ledger.opt_in(&[1; 32])?;
    ledger.global_put(b"g", &Value::Int(1))?;
    ledger.set_local(&[1; 32], b"k", &Value::Int(2))?;
    ledger.set_box(b"b", b"xyz")?;
    ledger.add_log(b"log")
}

/// The scene with a copy of its ledger in place of it, made before the ledger's global value went.
fn copied(alloc: Global) -> Result<Box<Scene>, StepFault> {
    let mut scene = Scene::new(alloc, 0)?;
    fill(&mut scene.ledger)?;
    let copy = scene.ledger.copy(alloc)?;
    scene.ledger.global_del(b"g");
    scene.ledger = copy;
    Ok(scene)
}

/// Whether the ledger holds what `fill` makes, beside who opted in.
fn is_filled(ledger: &Ledger) -> bool {
    ledger.global_count() == 1
        && global_key_is(ledger, 0, "g")
        && first_global_is(ledger, 1)
        && only_local_is(ledger, &[1; 32], 2)
        && only_box_is(ledger, b"b", b"xyz")
        && ledger.log_count() == 1
        && log_is(ledger, 0, b"log")
}

#[test]
fn a_copy_is_equal_and_apart(rt: HostRuntime) -> Result<(), Fail> {
    let scene = copied(rt.alloc())?;
    assert!(rt; is_filled(&scene.ledger));
    assert!(rt; scene.local(0) == 2);
    Ok(())
}
