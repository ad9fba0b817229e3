//! Messages of Service Discovery, as they change what is known.
ghost use Rattle.std.specs.Prelude.{◌≡◌, ◌++◌, OnOk, map};
ghost use Rattle.sd_wire.specs.contents.Values.{view_read, view_sd};
ghost use Rattle.sd_wire.specs.decoding.Program.{reading};
ghost use Rattle.someip_wire.specs.View.{view_item};
ghost use Rattle.someip_services.specs.Services.{begun_again, entries_taken, entry_taken, item_taken, offers_changed};
ghost use Rattle.someip_services.specs.Services.{payload_taken, sd_taken, session_taken};
ghost use Rattle.someip_services.specs.Services.{subscriptions_changed, with_full};
ghost use Rattle.someip_services.specs.declared.told.Told.TheVariants.{Offer, Subscription};

use crate::entries::{OfferShown, SubscriptionShown, offer_shown, subscription_shown};
use crate::history::ServiceHistory;
use crate::told::{FullBook, Told};
use audit_endpoints::{is_sd, read_payload};
use audit_sd::sessions::{Finding, SdMessage};
use audit_services::{Ended, NoTerms, OfferTerms, Offered, Shown, Subscribed, Why, all_of};
use sd_wire::{ReadEntry, SdRead};
use someip_audit::sd_message;
use someip_tables::Moment;
use someip_tables::hashed::Origin;
use someip_wire::{Message, WireError};
use std::alloc::{AllocError, Global};
use std::net::Ipv4Addr;

impl ServiceHistory {
    /// Takes an item of a datagram.
    pub(crate) fn take_item(
        &mut self,
        alloc: Global,
        now: Moment,
        origin: &Origin,
        item: &Result<Message<'_>, WireError>,
    ) -> Result<(), AllocError>
        ensures { OnOk result (self.new ≡ item_taken now origin.now (view_item item.now) self.old) }
    {
        match item {
            Ok(message) => {
                if !is_sd(origin, &message.header) {
                    return Ok(());
                }
                let session = message.header.session;
                self.take_payload(alloc, now, origin, session, message.payload)
            }
            Err(_) => Ok(()),
        }
    }

    /// Takes the payload of a message of Service Discovery with this session.
    fn take_payload(
        &mut self,
        alloc: Global,
        now: Moment,
        origin: &Origin,
        session: u16,
        payload: &[u8],
    ) -> Result<(), AllocError>
        ensures { OnOk result (self.new ≡ payload_taken now origin.now session (reading payload.now) self.old) }
    {
        match read_payload(alloc, payload)? {
            Ok(read) => self.take_sd(alloc, now, origin, session, &read),
            Err(_) => Ok(()),
        }
    }

    /// Takes what a message of Service Discovery says: by its session and Reboot flag first, and then its entries.
    fn take_sd(
        &mut self,
        alloc: Global,
        now: Moment,
        origin: &Origin,
        session: u16,
        read: &SdRead,
    ) -> Result<(), AllocError>
        ensures { OnOk result (self.new ≡ sd_taken now origin.now session (view_sd read.now) self.old) }
    {
        self.take_session(alloc, now, sd_message(now, origin, session, read.flags))?;
        self.take_entries(alloc, now, origin, &read.entries)
    }

    /// Takes the session and the Reboot flag of a message.
    fn take_session(
        &mut self,
        alloc: Global,
        now: Moment,
        message: SdMessage,
    ) -> Result<(), AllocError>
        ensures { OnOk result (self.new ≡ session_taken now message self.old) }
    {
        let sender = message.from;
        match self.sessions.saw(message)? {
            Some(Finding::Reboot) => self.begin_again(alloc, now, sender),
            Some(Finding::Full) => self.tell_full(true, FullBook::Sessions),
            _ => Ok(()),
        }
    }

    /// A node began again.
    fn begin_again(
        &mut self,
        alloc: Global,
        now: Moment,
        address: Ipv4Addr,
    ) -> Result<(), AllocError>
        ensures { OnOk result (self.new ≡ begun_again now address self.old) }
    {
        self.change_offers(alloc, now, Shown::PlaceEnds(address, Why::Reboot))?;
        self.change_subscriptions(alloc, now, Shown::PlaceEnds(all_of(address), Why::Reboot))
    }

    /// Takes entries in their order.
    fn take_entries(
        &mut self,
        alloc: Global,
        now: Moment,
        origin: &Origin,
        entries: &[ReadEntry],
    ) -> Result<(), AllocError>
        ensures { OnOk result (self.new ≡ entries_taken now origin.now (map view_read entries.now) self.old) }
    {
        for entry in entries {
            self.take_entry(alloc, now, origin, entry)?;
        }
        Ok(())
    }

    /// Takes an entry.
    fn take_entry(
        &mut self,
        alloc: Global,
        now: Moment,
        origin: &Origin,
        entry: &ReadEntry,
    ) -> Result<(), AllocError>
        ensures { OnOk result (self.new ≡ entry_taken now origin.now (view_read entry.now) self.old) }
    {
        if let Some(shown) = offer_shown(origin, entry) {
            self.change_offers(alloc, now, shown)?;
        }
        if let Some(shown) = subscription_shown(origin, entry) {
            self.change_subscriptions(alloc, now, shown)?;
        }
        Ok(())
    }

    /// Changes the offers.
    fn change_offers(
        &mut self,
        alloc: Global,
        now: Moment,
        shown: OfferShown,
    ) -> Result<(), AllocError>
        ensures { OnOk result (self.new ≡ offers_changed now shown self.old) }
    {
        self.ended_offers.clear();
        let full = self.offers.take(alloc, now, shown, &mut self.ended_offers)?;
        append_offers(&mut self.told, &self.ended_offers)?;
        self.tell_full(full, FullBook::Offers)
    }

    /// Changes the subscriptions.
    fn change_subscriptions(
        &mut self,
        alloc: Global,
        now: Moment,
        shown: SubscriptionShown,
    ) -> Result<(), AllocError>
        ensures { OnOk result (self.new ≡ subscriptions_changed now shown self.old) }
    {
        self.ended_subscriptions.clear();
        let full = self
            .subscriptions
            .take(alloc, now, shown, &mut self.ended_subscriptions)?;
        append_subscriptions(&mut self.told, &self.ended_subscriptions)?;
        self.tell_full(full, FullBook::Subscriptions)
    }

    /// Tells that there is no room for more, if that is new.
    fn tell_full(&mut self, is_new: bool, book: FullBook) -> Result<(), AllocError>
        ensures { OnOk result (self.new ≡ with_full book is_new self.old) }
    {
        if is_new {
            self.told.push(Told::Full(book))?;
        }
        Ok(())
    }
}

/// Appends the offers that ended.
pub(crate) fn append_offers(
    told: &mut Vec<Told>,
    ended: &[Ended<Offered, OfferTerms>],
) -> Result<(), AllocError>
    ensures { OnOk result (told.new.items ≡ told.old.items ++ map Offer ended.now) }
{
    for one in ended {
        told.push(Told::Offer(*one))?;
    }
    Ok(())
}

/// Appends the subscriptions that ended.
pub(crate) fn append_subscriptions(
    told: &mut Vec<Told>,
    ended: &[Ended<Subscribed, NoTerms>],
) -> Result<(), AllocError>
    ensures { OnOk result (told.new.items ≡ told.old.items ++ map Subscription ended.now) }
{
    for one in ended {
        told.push(Told::Subscription(*one))?;
    }
    Ok(())
}
