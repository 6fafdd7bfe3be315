//! The guard in front of a host, and behind it.
ghost use Rattle.std.specs.Prelude.{◌≡◌, ◌≤◌, OnOk, OnErr, false, true, length, take};
ghost use Rattle.net_base.specs.Time.{IsMoment};
ghost use Rattle.interface.specs.Stands.{IsPaced};
ghost use Rattle.std.specs.Result.{result_err};
ghost use Rattle.iface_host.specs.Guarded as spec;
ghost use Rattle.iface_host.specs.Guarded.{Changes, Defends, IsStanding, Pins, TakesGuarded};
ghost use Rattle.iface_host.specs.Properties.{machine_of};
ghost use Rattle.iface_host.specs.Stands.{watch_for};

use crate::host::{IfaceHost, Settings};
use crate::outbox::write_front;
use crate::refusal::Refusal;
use guard::guard::is_ordinary;
use guard::reports::{kept, kept_mld};
use guard::{Conflict, Counts, Limit, Watch};
use iface_tables::{IgmpReportState, MldReportState};
use ip_wire::{EthernetAddress, HardwareAddress, IpAddress};
use net_base::time::{Duration, Instant};

/// What a guard keeps of a host while it takes a frame.
#[derive(Clone, Copy, Debug)]
pub struct Standing {
    /// Until when the host is silent, if it asks for nobody meanwhile.
    pub silent_until: Option<Instant>,
    /// Until when the entry of the frame's sender is to last.
    pub limit: Option<Limit>,
    /// Whether answers to queries that wait are kept.
    pub keeps_reports: bool,
    /// Whether neighbours are kept where nothing is learnt of routers.
    pub keeps_neighbors: bool,
    /// The answer of IGMP that waits.
    pub igmp: IgmpReportState,
    /// That of MLD.
    pub mld: MldReportState,
    /// How many prefixes are known.
    pub prefixes: usize,
    /// How many routers are.
    pub routers: usize,
    /// Whether what is known changed.
    pub changed: bool,
}

impl IfaceHost {
    /// How many frames its guard dropped, by the reason, and how many answers it held back.
    pub fn drops(&self) -> Counts
        ensures { result ≡ self.now.watch.counts }
    {
        self.watch.counts
    }

    /// Who claimed an own address last, and when, if somebody did (RFC 5227 2.4). It is noted where the guard keeps own
    /// addresses.
    pub fn conflict(&self) -> Option<Conflict>
        ensures { result ≡ self.now.watch.conflict }
    {
        self.watch.conflict
    }

    /// Who claimed a pinned address last, and when, if somebody did.
    pub fn pinned_conflict(&self) -> Option<Conflict>
        ensures { result ≡ self.now.watch.pinned_conflict }
    {
        self.watch.pinned_conflict
    }

    /// Pins a neighbour to a hardware address, in place of the one that it is pinned to, if it is pinned: the guard drops ARP
    /// packets and neighbour messages of it that tell another one. An entry with another one expires at once; the host learns the
    /// address from the next message that tells this one. `NotUnicast` if one of the two isn't unicast, else `TableFull` if it isn't pinned and eight others are.
    pub fn pin(&mut self, address: IpAddress, hardware: EthernetAddress) -> Result<(), Refusal>
        ensures pinned { OnOk result (Pins address hardware self.old self.new) }
        ensures why { result_err result ≡ spec.pin_refusal self.old address hardware }
        ensures refused { OnErr result (self.new ≡ self.old) }
    {
        if !address.is_unicast() || !hardware.is_unicast() {
            return Err(Refusal::NotUnicast);
        }
        if !self.watch.pin(address, hardware) {
            return Err(Refusal::TableFull);
        }
        self.keep_limit(Some(Limit {
            address,
            expires_at: Instant::ZERO,
            unless: Some(HardwareAddress::Ethernet(hardware)),
        }));
        Ok(())
    }

    /// Pins a neighbour no more. `NotThere` if it isn't pinned.
    pub fn unpin(&mut self, address: IpAddress) -> Result<(), Refusal>
        ensures pinned { OnOk result (self.new ≡ spec.after_unpin address self.old) }
        ensures why { result_err result ≡ spec.unpin_refusal self.old address }
        ensures refused { OnErr result (self.new ≡ self.old) }
    {
        if self.watch.unpin(address) {
            Ok(())
        } else {
            Err(Refusal::NotThere)
        }
    }

    /// Whether the host may see a frame that came at a moment.
    #[inline(always)]
    pub(crate) fn admits(&mut self, now: Instant, frame: &[u8]) -> bool
        ensures admitted { result ≡ spec.is_admitted now frame.now self.old }
        ensures rest { self.new ≡ spec.after_arrival now frame.now self.old }
        ensures ordinary { spec.is_ordinary_to frame.now self.new ≡ spec.is_ordinary_to frame.now self.old }
    {
        let own = self.interface.ip_addrs();
        let hardware = self.interface.hardware_addr();
        self.watch.admits(now, frame, hardware, own)
    }

    /// Whether nothing is asked of a frame but its source and its protocol, where there is a guard.
    #[inline(always)]
    pub(crate) fn is_ordinary(&self, frame: &[u8]) -> bool
        ensures { result ≡ spec.is_ordinary_to frame.now self.now }
    {
        self.watch.is_on && is_ordinary(frame, self.interface.ip_addrs())
    }

    /// Takes an ordinary frame at a moment, as [`IfaceHost::take_guarded`] does.
    #[inline(always)]
    pub(crate) fn take_ordinary(&mut self, now: Instant, frame: &[u8], out: &mut [u8]) -> usize
        requires moment { IsMoment now }
        requires room { 1514 ≤ length out.old }
        requires ordinary { spec.is_ordinary_to frame.now self.old ≡ true }
        ensures admitted { spec.is_admitted now frame.now self.old ≡ true }
        ensures same { spec.after_arrival now frame.now self.old ≡ self.old }
        ensures taken { TakesGuarded now frame.now result out.old out.new self.old self.new }
    {
        let own = self.interface.ip_addrs();
        self.watch.leaves_ordinary(frame, own);
        let neighbors = self.interface.neighbors();
        let limit = self
            .watch
            .guard
            .limit_of_ordinary(now, frame, own, neighbors);
        self.take_limited(now, frame, limit, out)
    }

    /// Takes a frame that the guard admits, and that isn't ordinary where there is one, at a moment, and leaves of what it changed what the
    /// guard leaves. Answers how many octets the response has that is written to the front of a buffer, 0 where there is none.
    pub(crate) fn take_guarded(&mut self, now: Instant, frame: &[u8], out: &mut [u8]) -> usize
        requires moment { IsMoment now }
        requires room { 1514 ≤ length out.old }
        requires special { spec.is_ordinary_to frame.now self.old ≡ false }
        ensures { TakesGuarded now frame.now result out.old out.new self.old self.new }
    {
        if !self.watch.is_on {
            return self.take_frame(now, frame, false, out);
        }
        let limit = self.limit_on(now, frame);
        self.take_and_keep(now, frame, true, limit, out)
    }

    /// Takes a frame that tells of no groups and routers, with the limit that it brings to the entry of its sender. Most bring none, and
    /// the guard leaves all that they change.
    #[inline(always)]
    fn take_limited(
        &mut self,
        now: Instant,
        frame: &[u8],
        limit: Option<Limit>,
        out: &mut [u8],
    ) -> usize
        requires moment { IsMoment now }
        requires room { 1514 ≤ length out.old }
        requires limit { limit ≡ spec.limit_on now frame.now self.old }
        requires silent { spec.may_tell frame.now self.old ≡ false }
        ensures { TakesGuarded now frame.now result out.old out.new self.old self.new }
    {
        if limit.is_some() || self.is_silenced(now) {
            return self.take_and_keep(now, frame, false, limit, out);
        }
        let known = self.is_known_on(now, frame);
        self.take_frame(now, frame, known, out)
    }

    /// Takes a frame that may tell of groups and routers or not, and keeps what the guard keeps of the host.
    #[inline(never)]
    fn take_and_keep(
        &mut self,
        now: Instant,
        frame: &[u8],
        tells: bool,
        limit: Option<Limit>,
        out: &mut [u8],
    ) -> usize
        requires moment { IsMoment now }
        requires room { 1514 ≤ length out.old }
        requires tells { tells ≡ spec.may_tell frame.now self.old }
        requires limit { limit ≡ spec.limit_on now frame.now self.old }
        ensures { TakesGuarded now frame.now result out.old out.new self.old self.new }
    {
        let standing = self.standing(now, frame, tells, limit);
        let known = self.is_known_on(now, frame);
        self.begin_silence(now, standing.silent_until.is_some());
        let len = self.take_frame(now, frame, known, out);
        self.keep(&standing);
        len
    }

    /// Whether a frame that came at a moment is of a neighbour whom the guard knows well, where a rate of answers to whomever is used up.
    #[inline(always)]
    fn is_known_on(&self, now: Instant, frame: &[u8]) -> bool
        requires { IsMoment now }
        ensures { result ≡ spec.is_known_on now frame.now self.now }
    {
        if !self.watch.is_on || !self.watch.answers.is_short(now) {
            return false;
        }
        self.watch
            .guard
            .comes_from_known(now, frame, self.interface.neighbors())
    }

    /// What the guard keeps of the host while it takes a frame at a moment.
    fn standing(&self, now: Instant, frame: &[u8], tells: bool, limit: Option<Limit>) -> Standing
        requires moment { IsMoment now }
        requires tells { tells ≡ spec.may_tell frame.now self.now }
        requires limit { limit ≡ spec.limit_on now frame.now self.now }
        ensures standing { IsStanding now frame.now self.now result }
        ensures paced { IsPaced result.igmp }
    {
        let slaac = self.interface.slaac();
        Standing {
            silent_until: self.silence_to_keep(now),
            limit,
            keeps_reports: tells & self.watch.guard.keeps_reports,
            keeps_neighbors: tells & self.watch.guard.keeps_neighbors,
            igmp: self.interface.igmp_report(),
            mld: self.interface.mld_report(),
            prefixes: slaac.prefix().len(),
            routers: slaac.routes().len(),
            changed: slaac.has_ra_update(),
        }
    }

    /// Until when the host is silent, if by a frame at a moment it asks for nobody, as a socket waits and it is the turn of sockets.
    fn silence_to_keep(&self, now: Instant) -> Option<Instant>
        ensures { result ≡ spec.silence_to_keep now self.now }
    {
        if self.is_silenced(now) {
            Some(self.interface.neighbors().silent_until())
        } else {
            None
        }
    }

    /// Whether by a frame at a moment the host asks for nobody.
    #[inline(always)]
    fn is_silenced(&self, now: Instant) -> bool
        ensures { result ≡ spec.is_silenced now self.now }
    {
        if !self.watch.is_on || !self.schedule.is_waiting() {
            return false;
        }
        self.watch
            .guard
            .is_turn_of_sockets(now, self.interface.neighbors())
    }

    /// Until when the entry of a frame's sender is to last.
    fn limit_on(&self, now: Instant, frame: &[u8]) -> Option<Limit>
        requires { IsMoment now }
        ensures { result ≡ spec.limit_on now frame.now self.now }
    {
        if !self.watch.is_on {
            return None;
        }
        let own = self.interface.ip_addrs();
        self.watch
            .guard
            .limit_for(now, frame, own, self.interface.neighbors())
    }

    /// Has the host ask for nobody at a moment, if that is to be.
    fn begin_silence(&mut self, now: Instant, silenced: bool)
        requires { IsMoment now }
        ensures { Changes (spec.begun_at now silenced) self.old self.new }
    {
        if silenced {
            self.interface.set_silence(now + Duration::from_micros(1));
        }
    }

    /// Leaves of what a frame changed what the guard leaves.
    fn keep(&mut self, standing: &Standing)
        requires { IsPaced standing.now.igmp }
        ensures { Changes (spec.kept_by standing.now) self.old self.new }
    {
        self.keep_silence(standing.silent_until);
        self.keep_limit(standing.limit);
        self.keep_reports(standing);
        self.keep_update(standing);
    }

    /// The silence is that of before, if there was one to keep.
    fn keep_silence(&mut self, until: Option<Instant>)
        ensures { Changes (spec.silence_back until) self.old self.new }
    {
        if let Some(until) = until {
            self.interface.set_silence(until);
        }
    }

    /// The entry of the frame's sender doesn't outlast the limit, if there is one.
    fn keep_limit(&mut self, limit: Option<Limit>)
        ensures { Changes (spec.limit_kept limit) self.old self.new }
    {
        let Some(limit) = limit else {
            return;
        };
        if limit.is_for_other(self.interface.neighbors()) {
            self.interface
                .limit_neighbor(limit.address, limit.expires_at);
        }
    }

    /// Answers that wait stay where a query would only put them off.
    fn keep_reports(&mut self, standing: &Standing)
        requires { IsPaced standing.now.igmp }
        ensures { Changes (spec.reports_back standing.now) self.old self.new }
    {
        if !standing.keeps_reports {
            return;
        }
        let igmp = kept(standing.igmp, self.interface.igmp_report());
        let mld = kept_mld(standing.mld, self.interface.mld_report());
        self.interface.set_igmp_report(igmp);
        self.interface.set_mld_report(mld);
    }

    /// Where nothing was learnt of routers, nothing that is known changed.
    fn keep_update(&mut self, standing: &Standing)
        ensures { Changes (spec.update_back standing.now) self.old self.new }
    {
        if !standing.keeps_neighbors {
            return;
        }
        if !self.is_nothing_learnt(standing) {
            return;
        }
        self.interface.set_ra_update(standing.changed);
    }

    /// Whether as many prefixes and routers are known as before.
    fn is_nothing_learnt(&self, standing: &Standing) -> bool
        ensures { result ≡ spec.is_nothing_learnt standing.now (machine_of self.now) }
    {
        let slaac = self.interface.slaac();
        slaac.prefix().len() == standing.prefixes && slaac.routes().len() == standing.routers
    }

    /// Writes the announcement of an own address to the front of a buffer, if the guard owes one, and counts it. Answers how many
    /// octets it has, 0 where there is none.
    #[inline(never)]
    pub(crate) fn defend(&mut self, out: &mut [u8]) -> usize
        requires { 1514 ≤ length out.old }
        ensures { Defends result out.old out.new self.old self.new }
    {
        match self.watch.announcement_due(self.interface.hardware_addr()) {
            None => 0,
            Some(frame) => {
                let len = write_front(out, &frame);
                self.frames.hand_over(len);
                len
            }
        }
    }

    /// Notes the frame of so many octets in the front of a buffer that is sent at a moment.
    #[inline(always)]
    pub(crate) fn note_sent(&mut self, now: Instant, out: &[u8], len: usize)
        ensures { self.new ≡ spec.after_sending now (take len out.now) self.old }
    {
        self.watch.note_sent(now, front(out, len));
    }
}

/// So many octets in the front of a buffer; all of it, if it is shorter.
#[tactic(auto, using(crate::proofs::FrameCalls::all_of))]
fn front(out: &[u8], len: usize) -> &[u8]
    ensures { result.now ≡ take len out.now }
{
    match out.get(..len) {
        Some(front) => front,
        None => out,
    }
}

/// The guard of a host that is made by these settings.
pub(crate) fn watch_for(settings: &Settings) -> Watch
    ensures { result ≡ watch_for settings.now }
{
    let mut watch = settings.watch;
    if let HardwareAddress::Ip = settings.hardware_addr {
        watch.is_on = false;
    }
    watch
}
