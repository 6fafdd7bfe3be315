//! Frames in, frames out, and when to come back.
ghost use Rattle.std.specs.Prelude.{◌≡◌, ◌≤◌, IfOk, IfErr, OnOk, OnErr, IfSome, length, None, Some, []};
ghost use Rattle.net_base.specs.Time.{IsMoment};
ghost use Rattle.std.specs.Result.{IsErrOf, result_err};
ghost use Rattle.host_machine.specs.Interface.Polling as polling;
ghost use Rattle.iface_host.specs.Frames.{Gives, HandsOver, IsDue, PollsInto, Round, Takes};
ghost use Rattle.egress_schedule.specs.Plan.{planned};
ghost use Rattle.egress_schedule.specs.Rounds.{before_round};
ghost use Rattle.iface_host.specs.Guarded.{NextIs, Receives};
ghost use Rattle.iface_host.specs.Known.{knows_at};
ghost use Rattle.iface_host.specs.Refusals.{frame_refusal, moment_refusal};
ghost use Rattle.iface_host.specs.RoundDevice.{len_or_zero};

use crate::host::{FRAME_LEN, IfaceHost};
use crate::known::KnownTo;
use crate::outbox::{Outbox, write_front};
use crate::refusal::Refusal;
use crate::round_device::RoundDevice;
use egress_schedule::Schedule;
use host_machine::PollResult;
use interface::Interface;
use net_base::time::Instant;
use socket_set::SocketSet;

/// The last moment that a caller may give, in microseconds.
const LAST_MOMENT: i64 = 1 << 62;

impl IfaceHost {
    /// Takes a frame at a moment, and writes the frame that is to be sent in response, if there is one, to the front of
    /// a buffer. Answers how many octets that has, 0 where there is none. A frame that the host's guard drops changes
    /// nothing but what the guard keeps, and is answered by the announcement of an own address, if one is owed; of a
    /// response that it holds back nothing is written. Of one that it admits less may be left: the entry of its sender
    /// expires sooner, an answer to a query that waits stays, and neighbours stay where nothing is learnt of routers. What a
    /// message of ICMP says of a packet of the host is kept for [`IfaceHost::take_packet_error`], and what one of ARP says of a watched
    /// address for [`IfaceHost::take_watched`].
    /// `BadMoment` if the moment is out of range, `NoRoom` if the buffer has less than 1,514 octets.
    pub fn receive(&mut self, now: i64, frame: &[u8], out: &mut [u8]) -> Result<usize, Refusal>
        ensures why { result_err result ≡ frame_refusal now (length out.old) }
        ensures received { IfOk result (λ n. Receives now frame.now n out.old out.new self.old self.new) }
        ensures refused { OnErr result (self.new ≡ self.old) }
        ensures out { OnErr result (out.new ≡ out.old) }
    {
        let now = moment(now)?;
        if out.len() < FRAME_LEN {
            return Err(Refusal::NoRoom);
        }
        Ok(self.hear(now, frame, out))
    }

    /// Takes a frame that came at a moment, if the guard admits it. Answers how many octets the response has that is written to the
    /// front of a buffer, 0 where there is none.
    #[inline(always)]
    fn hear(&mut self, now: Instant, frame: &[u8], out: &mut [u8]) -> usize
        requires moment { IsMoment now }
        requires room { 1514 ≤ length out.old }
        ensures { Receives now frame.now result out.old out.new self.old self.new }
    {
        if self.is_ordinary(frame) {
            return self.take_ordinary(now, frame, out);
        }
        if !self.admits(now, frame) {
            return self.defend(out);
        }
        if !self.makes_room(now, frame) {
            return 0;
        }
        self.note_error(frame);
        self.note_claim(frame);
        self.take_guarded(now, frame, out)
    }

    /// Takes a frame, of a known neighbour or not, and sends the response that the guard lets go.
    pub(crate) fn take_frame(
        &mut self,
        now: Instant,
        frame: &[u8],
        known: bool,
        out: &mut [u8],
    ) -> usize
        requires moment { IsMoment now }
        requires room { 1514 ≤ length out.old }
        ensures { Takes now frame.now known result out.old out.new self.old self.new }
    {
        self.changed |= !frame.is_empty();
        self.frames.take();
        match self.interface.receive_frame(now, frame, &mut self.sockets) {
            Some(reply) => {
                if !self.watch.lets_go(now, reply, frame.len(), known) {
                    return 0;
                }
                let len = write_front(out, reply);
                self.frames.hand_over(len);
                len
            }
            None => 0,
        }
    }

    /// Writes the next frame that is to be sent to the front of a buffer, and answers how many octets it has. If no
    /// frame waits, a round is made at the moment before: what has ended is dropped, and each socket that has
    /// something to send gets its turn once, after what is due to routers; 0 says that the round sent nothing. A
    /// packet that waited for its neighbour as long as the patience is given up, sockets that wait ask in turn, a packet
    /// for a known neighbour passes those that wait before it, and one packet that has to be cut goes at a time.
    /// `BadMoment` if the moment is out of range, `NoRoom` if the buffer has less than 1,514 octets, `NoMemory` if
    /// memory for a frame is refused before the round.
    pub fn next(&mut self, now: i64, out: &mut [u8]) -> Result<usize, Refusal>
        ensures why { (e : Refusal) → frame_refusal now (length out.old) ≡ Some e → IsErrOf result e }
        ensures memory { frame_refusal now (length out.old) ≡ None →
            IfErr result (λ e. (e ≡ Refusal.NoMemory) × (self.old.outbox.frames ≡ [])) }
        ensures next { IfOk result (λ n. NextIs now n out.old out.new self.old self.new) }
        ensures refused { OnErr result (self.new ≡ self.old) }
        ensures out { OnErr result (out.new ≡ out.old) }
    {
        let now = moment(now)?;
        if out.len() < FRAME_LEN {
            return Err(Refusal::NoRoom);
        }
        let len = self.give(now, out)?;
        self.note_sent(now, out, len);
        Ok(len)
    }

    /// Hands over the first frame that waits, or makes a round. `NoMemory` if memory for a frame is refused before the
    /// round.
    fn give(&mut self, now: Instant, out: &mut [u8]) -> Result<usize, Refusal>
        requires moment { IsMoment now }
        requires room { 1514 ≤ length out.old }
        ensures memory { IfErr result (λ e. (e ≡ Refusal.NoMemory) × (self.old.outbox.frames ≡ [])) }
        ensures given { IfOk result (λ n. Gives now n out.old out.new self.old self.new) }
        ensures refused { OnErr result ((self.new ≡ self.old) × (out.new ≡ out.old)) }
    {
        if self.outbox.len() > 0 {
            return Ok(self.hand_over(out));
        }
        self.round(now, out)
    }

    /// The least instant at which something is due, if anything is: 0 if a frame waits.
    pub fn poll_at(&mut self, now: i64) -> Result<Option<Instant>, Refusal>
        ensures why { result_err result ≡ moment_refusal now }
        ensures due { IfOk result (λ at. IsDue now at self.old self.new) }
        ensures refused { OnErr result (self.new ≡ self.old) }
    {
        let now = moment(now)?;
        let due = self.interface.poll_at(now, &self.sockets);
        if self.outbox.len() == 0 {
            Ok(due)
        } else {
            Ok(Some(Instant::ZERO))
        }
    }

    /// Makes a round at a moment, and writes its first frame to the front of a buffer, where no frame waits. Answers how
    /// many octets that has, 0 where there is none.
    fn round(&mut self, now: Instant, out: &mut [u8]) -> Result<usize, Refusal>
        requires { IsMoment now }
        ensures memory { IfErr result (λ e. e ≡ Refusal.NoMemory) }
        ensures went { IfOk result (λ n. Round now n out.old out.new self.old self.new) }
        ensures refused { OnErr result ((self.new ≡ self.old) × (out.new ≡ out.old)) }
    {
        if self.outbox.reserve().is_err() {
            return Err(Refusal::NoMemory);
        }
        let is_piece_left = self.interface.has_pending_fragment();
        prepare(
            &mut self.schedule,
            now,
            self.ip_mtu,
            is_piece_left,
            &self.interface,
            &mut self.sockets,
        );
        let (answer, len) = poll_into(
            now,
            &mut self.interface,
            &mut self.sockets,
            &mut self.outbox,
            out,
        );
        self.schedule.after_round(now, &mut self.sockets);
        self.changed |= is_changed(answer);
        self.frames.hand_over(len);
        Ok(len)
    }

    /// Hands over the first frame that waits, if one does, and counts it.
    fn hand_over(&mut self, out: &mut [u8]) -> usize
        requires { 1514 ≤ length out.old }
        ensures { HandsOver result out.old out.new self.old self.new }
    {
        let len = self.outbox.hand_over(out);
        self.frames.hand_over(len);
        len
    }
}

/// Prepares sockets for a round at a moment, by whom the interface knows.
fn prepare(
    schedule: &mut Schedule,
    now: Instant,
    ip_mtu: usize,
    is_piece_left: bool,
    interface: &Interface,
    sockets: &mut SocketSet<'static>,
)
    requires { IsMoment now }
    ensures { planned schedule.new sockets.new
        ≡ before_round (knows_at interface.now) now ip_mtu is_piece_left (planned schedule.old sockets.old) }
{
    let known = KnownTo { interface };
    schedule.before_round(now, ip_mtu, is_piece_left, &known, sockets);
}

/// Polls at a moment, by one call of each kind, and writes the first frame that is sent to the front of a buffer, where
/// no frame waits. Answers also how many octets that has, 0 where there is none.
fn poll_into(
    now: Instant,
    interface: &mut Interface,
    sockets: &mut SocketSet<'static>,
    outbox: &mut Outbox,
    out: &mut [u8],
) -> (PollResult, usize)
    requires { IsMoment now }
    ensures { PollsInto now result.0 result.1 out.old out.new outbox.old outbox.new interface.old interface.new
        sockets.old sockets.new }
{
    let mut device = RoundDevice {
        outbox,
        out,
        len: None,
    };
    let answer = poll_over(now, interface, sockets, &mut device);
    let RoundDevice {
        outbox: _,
        out: _,
        len,
    } = device;
    (answer, len_or_zero(len))
}

/// Polls at a moment, by one call of each kind, over the device of a round.
fn poll_over(
    now: Instant,
    interface: &mut Interface,
    sockets: &mut SocketSet<'static>,
    device: &mut RoundDevice<'_>,
) -> PollResult
    requires { IsMoment now }
    ensures same_outbox { device.new.outbox.ghost_name ≡ device.old.outbox.ghost_name }
    ensures same_buffer { device.new.out.ghost_name ≡ device.old.out.ghost_name }
    ensures polled { device.old.len ≡ None → PollsInto now result (len_or_zero device.new.len)
        device.old.out.now device.new.out.now device.old.outbox.now device.new.outbox.now
        interface.old interface.new sockets.old sockets.new }
{
    interface.stands_for_a_host();
    interface.poll(now, device, sockets, 1)
}

/// How many octets a frame has, 0 where there is none.
fn len_or_zero(len: Option<usize>) -> usize
    ensures { result ≡ len_or_zero len }
{
    match len {
        Some(len) => len,
        None => 0,
    }
}

/// Whether a poll's answer says that a socket may have changed.
fn is_changed(answer: PollResult) -> bool
    ensures { result ≡ polling.is_changed answer }
{
    match answer {
        PollResult::None => false,
        PollResult::SocketStateChanged => true,
    }
}

/// The moment of so many microseconds, if it is one that a caller may give.
pub(crate) fn moment(micros: i64) -> Result<Instant, Refusal>
    ensures why { result_err result ≡ moment_refusal micros }
    ensures moment { IfOk result (λ t. (t ≡ micros) × IsMoment t) }
{
    if 0 <= micros && micros <= LAST_MOMENT {
        Ok(Instant::from_micros(micros))
    } else {
        Err(Refusal::BadMoment)
    }
}
